// A second count of readings, written apart from the library's and by another method: one plain pass over the readings
// for each quantity. Its answers are texts.
use fault::{Cause, Fault};
use quantity::{Coldest, Flags, Gap, Load, Quantity, Reading};
use std::alloc::{AllocError, Global};

const FEW: usize = 48;

// A quantity that is also counted here, of readings that are in limits.
pub trait Recounted: Quantity {
    fn recount(heap: Global, readings: &[Reading]) -> Result<String, AllocError>;
}

fn in_limits(reading: &Reading) -> bool {
    let clamp = reading.clamp.unwrap_or(0);
    matches!(reading.probe, -600..=900)
        && matches!(clamp, -600..=900)
        && reading.watts < 20_001
        && reading.flags >> 16 == 0
}

// Refuses a list that is too long, and one with a reading beyond limits.
pub fn judged(readings: &[Reading]) -> Result<(), Fault> {
    if readings.len() > FEW {
        return Err(Fault::new(Cause::ManyReadings, FEW));
    }
    match readings.iter().position(|reading| !in_limits(reading)) {
        Some(place) => Err(Fault::new(Cause::WrongReading, place)),
        None => Ok(()),
    }
}

fn coil(reading: &Reading) -> i32 {
    let clamp = reading.clamp.unwrap_or(reading.probe);
    if reading.flags / 8 % 2 == 1 || clamp < reading.probe {
        clamp
    } else {
        reading.probe
    }
}

fn gap(reading: &Reading) -> Option<i32> {
    let clamp = reading.clamp?;
    Some(
        clamp
            .max(reading.probe)
            .saturating_sub(clamp.min(reading.probe)),
    )
}

// A size and its house, where there is one.
fn size_text(heap: Global, found: Option<(i32, usize)>) -> Result<String, AllocError> {
    match found {
        None => format!(in heap; "- -"),
        Some((size, house)) => format!(in heap; "{size} {house}"),
    }
}

impl Recounted for Load {
    fn recount(heap: Global, readings: &[Reading]) -> Result<String, AllocError> {
        let sum = readings.iter().fold(
            0u64,
            |sum, reading| sum.saturating_add(u64::from(reading.watts)),
        );
        let houses = readings.len() as u64;
        match sum.checked_div(houses) {
            None => format!(in heap; "{sum} {houses} -"),
            Some(mean) => format!(in heap; "{sum} {houses} {mean}"),
        }
    }
}

// From the last house to the first, so that an earlier house wins a tie by coming later.
impl Recounted for Coldest {
    fn recount(heap: Global, readings: &[Reading]) -> Result<String, AllocError> {
        let mut coldest: Option<(i32, usize)> = None;
        for (house, reading) in readings.iter().enumerate().rev() {
            let coil = coil(reading);
            if coldest.is_none_or(|(least, _)| coil <= least) {
                coldest = Some((coil, house));
            }
        }
        size_text(heap, coldest)
    }
}

impl Recounted for Gap {
    fn recount(heap: Global, readings: &[Reading]) -> Result<String, AllocError> {
        let mut widest: Option<(i32, usize)> = None;
        for (house, reading) in readings.iter().enumerate() {
            if let Some(gap) = gap(reading)
                && widest.is_none_or(|(most, _)| gap > most)
            {
                widest = Some((gap, house));
            }
        }
        size_text(heap, widest)
    }
}

// How many houses have the flag bit of that value.
fn houses_with(readings: &[Reading], value: u32) -> usize {
    readings
        .iter()
        .filter(|reading| reading.flags & value == value)
        .count()
}

// Bit by bit, by the number of houses that have it.
impl Recounted for Flags {
    fn recount(heap: Global, readings: &[Reading]) -> Result<String, AllocError> {
        let mut any: u32 = 0;
        let mut all: u32 = 0;
        let mut ones: u32 = 0;
        for place in 0u32..16 {
            let value = 1u32 << place;
            let houses = houses_with(readings, value);
            if houses > 0 {
                any |= value;
                ones = ones.saturating_add(1);
            }
            if houses == readings.len() {
                all |= value;
            }
        }
        format!(in heap; "{any} {all} {ones}")
    }
}
