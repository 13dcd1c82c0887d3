// Pseudo-random lists of readings, counted by the library and by the second count.
use crate::counts::{Recounted, judged};
use crate::readings::{agree, list};
use fault::Cause;
use quantity::{Coldest, Flags, Gap, Load, Reading};
use samples::{Source, Spread};
use std::alloc::{AllocError, Global};
use std::io;

const LISTS: usize = 400;

const SHOWN: usize = 6;

// Readings of up to 49 houses, which have near temperatures and few flags, or any.
fn next_list(heap: Global, source: &mut Source) -> Result<Vec<Reading>, AllocError> {
    let near = source.below(2) == 0;
    let spread = Spread {
        near,
        seldom: 800,
        flags: if near { 16 } else { 65_535 },
    };
    let mut readings = Vec::new(heap);
    for _ in 0..source.below(50) {
        readings.push(source.reading(spread))?;
    }
    Ok(readings)
}

fn all_lists(heap: Global) -> Result<Vec<Vec<Reading>>, AllocError> {
    let mut source = Source { state: 1 };
    let mut lists = Vec::new(heap);
    for _ in 0..LISTS {
        lists.push(next_list(heap, &mut source)?)?;
    }
    Ok(lists)
}

// The number of lists that are refused for the cause.
fn refused_for(lists: &[Vec<Reading>], cause: Cause) -> usize {
    lists
        .iter()
        .filter(|readings| judged(readings.as_slice()).is_err_and(|fault| fault.cause == cause))
        .count()
}

// Prints the number of lists on which the library and the second count agree.
fn print_agreed<Q: Recounted>(rt: &HostRuntime, lists: &[Vec<Reading>]) -> io::Result<()> {
    let mut agreed: usize = 0;
    for readings in lists {
        if agree::<Q>(rt.alloc(), readings.as_slice())? {
            agreed = agreed.saturating_add(1);
        }
    }
    let letter = Q::LETTER;
    println!(rt; "random lists: {letter} the counts agree on {agreed}")
}

// The first lists in full, and on how many of all the two counts agree.
pub fn random_lists(rt: &HostRuntime) -> io::Result<()> {
    let lists = all_lists(rt.alloc())?;
    for readings in lists.iter().take(SHOWN) {
        list(rt, "random list", readings.as_slice())?;
    }
    let lists = lists.as_slice();
    let many = refused_for(lists, Cause::ManyReadings);
    let beyond = refused_for(lists, Cause::WrongReading);
    println!(rt; "random lists: {LISTS}, {many} refused by 30, {beyond} by 26")?;
    print_agreed::<Load>(rt, lists)?;
    print_agreed::<Coldest>(rt, lists)?;
    print_agreed::<Gap>(rt, lists)?;
    print_agreed::<Flags>(rt, lists)
}
