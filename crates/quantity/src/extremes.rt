ghost use Rattle.std.specs.Prelude.{◌<◌, ◌≤◌};

use crate::quantities::Quantity;
use crate::readings::{MOST_HOUSES, Reading};
use crate::sizes::Measure;
use crate::words::Word;
use std::fmt;

const MOST_SIZE: u64 = 1_500;

// What one step of size counts in a word, and what it counts that there is a size.
const SIZE_PLACE: u64 = 256;

const FOUND: u64 = 1 << 32;

// A size in tenths of a degree, and the house that has it.
#[derive(Clone, Copy)]
pub struct Extreme {
    pub size: u32,
    pub house: usize,
    ghost within: { (size ≤ 1500) × (house < 48) },
}

// A size and its house; none where no house has a size.
#[derive(Clone, Copy)]
pub struct SizeFigures {
    pub found: Option<(i32, usize)>,
}

impl Extreme {
    ghost use Rattle.std.specs.Prelude.{◌≡◌};
    ghost use Rattle.quantity.specs.Extremes.{extreme, goes_before};

    // That size in that house; none where either is beyond its limits.
    fn new(size: u64, house: usize) -> Option<Extreme>
        ensures { result ≡ extreme size house }
    {
        if size <= MOST_SIZE && house < MOST_HOUSES {
            Some(Extreme {
                size: size as u32,
                house,
            })
        } else {
            None
        }
    }

    // Whether this goes before the other: its size wins, or it is the lower house of two with equal sizes.
    fn goes_before<M: Measure>(self, other: Extreme) -> bool
        ensures { result ≡ goes_before M.measuring.choice self other }
    {
        M::wins(self.size, other.size) || self.size == other.size && self.house < other.house
    }
}

impl<M: Measure> Quantity for M {
    ghost use Rattle.quantity.specs.Extremes.{extreme_sense};
    ghost use Rattle.quantity.specs.Ranks.{extreme_laws};

    type Value = Option<Extreme>;

    type Figures = SizeFigures;

    const LETTER: char = <M as Measure>::LETTER;

    ghost LETTER = { M.LETTER };

    ghost sense = { extreme_sense M.measuring };

    ghost laws = { extreme_laws M.measuring.choice (extreme_sense M.measuring).given (extreme_sense M.measuring).figures };

    fn value(house: usize, reading: Reading) -> Option<Extreme> {
        if !reading.usable(house) {
            return None;
        }
        Extreme::new(u64::from(M::size(reading)?), house)
    }

    fn nothing() -> Option<Extreme> {
        None
    }

    fn join(a: Option<Extreme>, b: Option<Extreme>) -> Option<Extreme> {
        match (a, b) {
            (None, b) => b,
            (a, None) => a,
            (Some(a), Some(b)) => Some(if b.goes_before::<M>(a) { b } else { a }),
        }
    }

    fn word(value: Option<Extreme>) -> Word {
        Word {
            bits: value.map_or(0, |extreme| {
                FOUND + u64::from(extreme.size) * SIZE_PLACE + extreme.house as u64
            }),
        }
    }

    fn back(word: Word) -> Option<Option<Extreme>> {
        if word.bits == 0 {
            return Some(None);
        }
        let digits = word.bits.checked_sub(FOUND)?;
        Extreme::new(digits / SIZE_PLACE, (digits % SIZE_PLACE) as usize).map(Some)
    }

    fn figures(value: Option<Extreme>) -> SizeFigures {
        SizeFigures {
            found: value.map(|extreme| (M::answered(extreme), extreme.house)),
        }
    }
}

impl fmt::Display for SizeFigures {
    ghost use Rattle.std.specs.Prelude.{Some};
    ghost use Rattle.quantity.specs.Shown.{size_shown};

    ghost output = { λ v. Some (size_shown v) };

    fn fmt<W: fmt::Write>(&self, f: &mut fmt::Formatter<W>) -> fmt::Result {
        match self.found {
            None => write!(f, "- -"),
            Some((size, house)) => write!(f, "{size} {house}"),
        }
    }
}
