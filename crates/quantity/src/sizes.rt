ghost use Rattle.std.specs.Prelude.{◌≡◌, ℕ};
ghost use Rattle.quantity.specs.Extremes.{Measuring, wins};
ghost use Rattle.quantity.specs.Sizes.{coil_measuring, gap_measuring};

use crate::extremes::Extreme;
use crate::readings::{LOWEST, Reading};

// The coldest coil of the row, and its house.
pub struct Coldest;

// The widest gap between probe and clamp, and its house.
pub struct Gap;

// What is measured in a house. The row is asked for the house whose size wins, and of equal sizes for the lower house.
pub trait Measure {
    // The letter by which the row is asked for it.
    const LETTER: char;

    ghost LETTER: { ℕ };

    ghost measuring: { Measuring };

    // The size of a reading; none where it has none.
    fn size(reading: Reading) -> Option<u32>
        ensures { result ≡ measuring.size reading };

    // Whether the first size wins against the second.
    fn wins(a: u32, b: u32) -> bool
        ensures { result ≡ wins measuring.choice a b };

    // The size as it is answered.
    fn answered(extreme: Extreme) -> i32
        ensures { result ≡ measuring.scale extreme.size };
}

impl Measure for Coldest {
    const LETTER: char = 'C';

    ghost LETTER = { 67 };

    ghost measuring = { coil_measuring };

    fn size(reading: Reading) -> Option<u32> {
        Some(reading.coil().abs_diff(LOWEST))
    }

    fn wins(a: u32, b: u32) -> bool {
        a < b
    }

    fn answered(extreme: Extreme) -> i32 {
        extreme.size as i32 + LOWEST
    }
}

impl Measure for Gap {
    const LETTER: char = 'G';

    ghost LETTER = { 71 };

    ghost measuring = { gap_measuring };

    fn size(reading: Reading) -> Option<u32> {
        reading.gap()
    }

    fn wins(a: u32, b: u32) -> bool {
        b < a
    }

    fn answered(extreme: Extreme) -> i32 {
        extreme.size as i32
    }
}
