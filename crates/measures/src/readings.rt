// Lists of readings, counted by the library and by the second count, and the values and words of each quantity.
use crate::counts::{Recounted, judged};
use quantity::{Coldest, Flags, Gap, Load, Quantity, Reading, Word, straight_count};
use std::alloc::{AllocError, Global};
use std::io;

// What the library answers, as a text.
fn first<Q: Quantity>(heap: Global, readings: &[Reading]) -> Result<String, AllocError> {
    match straight_count::<Q>(readings) {
        Ok(figures) => format!(in heap; "{figures}"),
        Err(fault) => format!(in heap; "{fault}"),
    }
}

// What the second count answers.
fn second<Q: Recounted>(heap: Global, readings: &[Reading]) -> Result<String, AllocError> {
    match judged(readings) {
        Ok(()) => Q::recount(heap, readings),
        Err(fault) => format!(in heap; "{fault}"),
    }
}

// Whether the two agree on the list.
pub fn agree<Q: Recounted>(heap: Global, readings: &[Reading]) -> Result<bool, AllocError> {
    Ok(first::<Q>(heap, readings)? == second::<Q>(heap, readings)?)
}

// Prints what the library answers, and says so where the second count answers something else.
fn answer<Q: Recounted>(rt: &HostRuntime, name: &str, readings: &[Reading]) -> io::Result<()> {
    let letter = Q::LETTER;
    let text = first::<Q>(rt.alloc(), readings)?;
    println!(rt; "{name}: {letter} {text}")?;
    if !agree::<Q>(rt.alloc(), readings)? {
        println!(rt; "{name}: {letter} differs in the second count")?;
    }
    Ok(())
}

// All four answers on a list.
pub fn list(rt: &HostRuntime, name: &str, readings: &[Reading]) -> io::Result<()> {
    answer::<Load>(rt, name, readings)?;
    answer::<Coldest>(rt, name, readings)?;
    answer::<Gap>(rt, name, readings)?;
    answer::<Flags>(rt, name, readings)
}

// The final figures and the word of a value.
fn value<Q: Quantity>(rt: &HostRuntime, name: &str, value: Q::Value) -> io::Result<()> {
    let letter = Q::LETTER;
    let figures = Q::figures(value);
    let bits = Q::word(value).bits;
    println!(rt; "{name}: {letter} {figures}, word {bits}")
}

// The value that a house and its reading give, by each quantity.
pub fn house(rt: &HostRuntime, name: &str, house: usize, reading: Reading) -> io::Result<()> {
    value::<Load>(rt, name, Load::value(house, reading))?;
    value::<Coldest>(rt, name, Coldest::value(house, reading))?;
    value::<Gap>(rt, name, Gap::value(house, reading))?;
    value::<Flags>(rt, name, Flags::value(house, reading))
}

// Two values joined.
pub fn join<Q: Quantity>(rt: &HostRuntime, name: &str, a: Q::Value, b: Q::Value) -> io::Result<()> {
    value::<Q>(rt, name, Q::join(a, b))
}

// The value of a word.
pub fn word<Q: Quantity>(rt: &HostRuntime, bits: u64) -> io::Result<()> {
    let letter = Q::LETTER;
    match Q::back(Word { bits }) {
        None => println!(rt; "word {bits}: {letter} no value"),
        Some(value) => {
            let figures = Q::figures(value);
            println!(rt; "word {bits}: {letter} {figures}")
        }
    }
}
