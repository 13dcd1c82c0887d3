ghost use Rattle.std.specs.Prelude.{◌≡◌, ◌^◌, ◌<◌};

use crate::quantities::Quantity;
use crate::readings::Reading;
use crate::words::Word;
use std::fmt;

// What the lowest bit of any counts in a word.
const ANY_PLACE: u64 = 1 << 16;

// The flags of the row: the bits set in some house and in every house.
pub struct Flags;

// The flag bits that some house has set, and those that every house has set.
#[derive(Clone, Copy)]
pub struct Sets {
    pub any: u16,
    pub all: u16,
    ghost fits: { (any < 2 ^ 16) × (all < 2 ^ 16) },
}

// The bits set in some house, those set in every house, and the number of ones in the first.
#[derive(Clone, Copy)]
pub struct FlagFigures {
    pub any: u16,
    pub all: u16,
    pub ones: u32,
}

impl Sets {
    ghost use Rattle.quantity.specs.Flags.{sets};

    // Those two sets of bits; none where one of them has more than 16.
    fn new(any: u64, all: u64) -> Option<Sets>
        ensures { result ≡ sets any all }
    {
        Some(Sets {
            any: u16::try_from(any).ok()?,
            all: u16::try_from(all).ok()?,
        })
    }
}

impl Quantity for Flags {
    ghost use Rattle.quantity.specs.Flags.{flags_sense};
    ghost use Rattle.quantity.specs.Unions.{sets_laws};

    type Value = Sets;

    type Figures = FlagFigures;

    const LETTER: char = 'F';

    ghost LETTER = { 70 };

    ghost sense = { flags_sense };

    ghost laws = { sets_laws };

    fn value(house: usize, reading: Reading) -> Sets {
        if !reading.usable(house) {
            return Flags::nothing();
        }
        let flags = reading.flags as u16;
        Sets {
            any: flags,
            all: flags,
        }
    }

    fn nothing() -> Sets {
        Sets {
            any: 0,
            all: u16::MAX,
        }
    }

    fn join(a: Sets, b: Sets) -> Sets {
        Sets {
            any: a.any | b.any,
            all: a.all & b.all,
        }
    }

    fn word(value: Sets) -> Word {
        Word {
            bits: u64::from(value.any) * ANY_PLACE + u64::from(value.all),
        }
    }

    fn back(word: Word) -> Option<Sets> {
        Sets::new(word.bits / ANY_PLACE, word.bits % ANY_PLACE)
    }

    fn figures(value: Sets) -> FlagFigures {
        FlagFigures {
            any: value.any,
            all: value.all,
            ones: value.any.count_ones(),
        }
    }
}

impl fmt::Display for FlagFigures {
    ghost use Rattle.std.specs.Prelude.{Some};
    ghost use Rattle.quantity.specs.Shown.{flags_shown};

    ghost output = { λ v. Some (flags_shown v) };

    fn fmt<W: fmt::Write>(&self, f: &mut fmt::Formatter<W>) -> fmt::Result {
        let FlagFigures { any, all, ones } = *self;
        write!(f, "{any} {all} {ones}")
    }
}
