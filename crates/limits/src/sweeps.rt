// Every file that differs from an accepted one in one byte, and every one that is cut short or made longer.
use crate::cases::read_verdict;
use crate::second::judged;
use samples::{LONGEST, ONE_HOUSE, TERRACE, TWO_HOUSES};
use std::alloc::{AllocError, Global};
use std::collections::BTreeMap;
use std::io;

// How many files had each verdict, by the number of the refusal, none for the accepted, and on how many the judges
// differ.
#[derive(Drop)]
struct Tally {
    files: BTreeMap<Option<u8>, usize>,
    differ: usize,
}

impl Tally {
    fn new(heap: Global) -> Tally {
        Tally {
            files: BTreeMap::new(heap),
            differ: 0,
        }
    }

    fn add(&mut self, file: &[u8]) -> Result<(), AllocError> {
        let verdict = read_verdict(file);
        let number = verdict.err().map(|fault| fault.cause.number());
        let files = self.files.entry(number)?.or_insert(0);
        *files = files.saturating_add(1);
        if verdict != judged(file) {
            self.differ = self.differ.saturating_add(1);
        }
        Ok(())
    }

    fn print(&self, rt: &HostRuntime, name: &str) -> io::Result<()> {
        for (number, files) in &self.files {
            match number {
                None => println!(rt; "{name}: {files} accepted")?,
                Some(number) => println!(rt; "{name}: {files} refused by {number}")?,
            }
        }
        let differ = self.differ;
        println!(rt; "{name}: the judges differ on {differ}")
    }
}

// Adds the files that differ from the base in that byte alone, which has each of the values.
fn add_changed(
    heap: Global,
    tally: &mut Tally,
    base: &[u8],
    place: usize,
    values: &[u8],
) -> Result<(), AllocError> {
    let mut file = Vec::from_slice(heap, base)?;
    for value in values {
        if let Some(byte) = file.get_mut(place) {
            *byte = *value;
        }
        tally.add(file.as_slice())?;
    }
    Ok(())
}

// Each byte of the base in turn has each of the values.
fn changed(heap: Global, base: &[u8], values: &[u8]) -> Result<Tally, AllocError> {
    let mut tally = Tally::new(heap);
    for place in 0..base.len() {
        add_changed(heap, &mut tally, base, place, values)?;
    }
    Ok(tally)
}

// The base at every length up to one more than its own.
fn resized(heap: Global, base: &[u8]) -> Result<Tally, AllocError> {
    let mut tally = Tally::new(heap);
    let mut file = Vec::from_slice(heap, base)?;
    file.push(0)?;
    for length in 0..=file.len() {
        tally.add(&file[..length])?;
    }
    Ok(tally)
}

fn sweep(rt: &HostRuntime, name: &str, base: &[u8], values: &[u8]) -> io::Result<()> {
    changed(rt.alloc(), base, values)?.print(rt, name)?;
    resized(rt.alloc(), base)?.print(rt, name)
}

// All of the short files, and a long one at the values next to a limit.
pub fn sweeps(rt: &HostRuntime) -> io::Result<()> {
    let all: Vec<u8> = (0..=u8::MAX).collect(rt.alloc())?;
    sweep(rt, "one house", &ONE_HOUSE, all.as_slice())?;
    sweep(rt, "two houses", &TWO_HOUSES, all.as_slice())?;
    sweep(rt, "terrace", &TERRACE, all.as_slice())?;
    let next = [0, 1, 2, 3, 4, 5, 46, 47, 48, 49, 127, 128, 129, 255];
    sweep(rt, "longest", &LONGEST, &next)
}
