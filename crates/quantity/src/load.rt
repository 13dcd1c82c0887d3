ghost use Rattle.std.specs.Prelude.{◌^◌, ◌<◌};

use crate::quantities::Quantity;
use crate::readings::Reading;
use crate::words::Word;
use std::fmt;

// What one watt counts in a word.
const WATTS_PLACE: u64 = 1 << 32;

// The load of the row: watts, houses and the mean.
pub struct Load;

// The sum of watts and the number of houses, each modulo 2^32.
#[derive(Clone, Copy)]
pub struct Total {
    pub watts: u32,
    pub houses: u32,
    ghost fits: { (watts < 2 ^ 32) × (houses < 2 ^ 32) },
}

// The sum of watts, the number of houses, and the mean rounded down, which no house has.
#[derive(Clone, Copy)]
pub struct LoadFigures {
    pub watts: u32,
    pub houses: u32,
    pub mean: Option<u32>,
}

impl Quantity for Load {
    ghost use Rattle.quantity.specs.Loads.{load_sense};
    ghost use Rattle.quantity.specs.Totals.{load_laws};

    type Value = Total;

    type Figures = LoadFigures;

    const LETTER: char = 'L';

    ghost LETTER = { 76 };

    ghost sense = { load_sense };

    ghost laws = { load_laws };

    fn value(house: usize, reading: Reading) -> Total {
        if reading.usable(house) {
            Total {
                watts: reading.watts,
                houses: 1,
            }
        } else {
            Load::nothing()
        }
    }

    fn nothing() -> Total {
        Total {
            watts: 0,
            houses: 0,
        }
    }

    fn join(a: Total, b: Total) -> Total {
        Total {
            watts: a.watts.wrapping_add(b.watts),
            houses: a.houses.wrapping_add(b.houses),
        }
    }

    fn word(value: Total) -> Word {
        Word {
            bits: u64::from(value.watts) * WATTS_PLACE + u64::from(value.houses),
        }
    }

    fn back(word: Word) -> Option<Total> {
        Some(Total {
            watts: (word.bits / WATTS_PLACE) as u32,
            houses: (word.bits % WATTS_PLACE) as u32,
        })
    }

    fn figures(value: Total) -> LoadFigures {
        LoadFigures {
            watts: value.watts,
            houses: value.houses,
            mean: value.watts.checked_div(value.houses),
        }
    }
}

impl fmt::Display for LoadFigures {
    ghost use Rattle.std.specs.Prelude.{Some};
    ghost use Rattle.quantity.specs.Shown.{load_shown};

    ghost output = { λ v. Some (load_shown v) };

    fn fmt<W: fmt::Write>(&self, f: &mut fmt::Formatter<W>) -> fmt::Result {
        let LoadFigures {
            watts,
            houses,
            mean,
        } = *self;
        match mean {
            None => write!(f, "{watts} {houses} -"),
            Some(mean) => write!(f, "{watts} {houses} {mean}"),
        }
    }
}
