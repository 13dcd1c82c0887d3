ghost use Rattle.std.specs.Prelude.{◌≡◌};
ghost use Rattle.samples.specs.Readings.{temperature_of, clamp_of, reading_of};

use crate::sources::Source;
use quantity::Reading;

// What readings are drawn from: temperatures near 0, so that there are ties, or anywhere in limits, one in so many of
// them beyond limits, and flags below a limit.
#[derive(Clone, Copy)]
pub struct Spread {
    pub near: bool,
    pub seldom: u16,
    pub flags: u16,
}

// A blank reading, for tables.
pub const BLANK: Reading = Reading {
    probe: 0,
    clamp: None,
    watts: 0,
    flags: 0,
};

// The two flag bits that every house has.
const COMMON_FLAGS: u32 = 0x30;

impl Source {
    fn temperature(&mut self, spread: Spread) -> i32
        ensures value { result ≡ (temperature_of spread self.old.state).0 }
        ensures state { self.new.state ≡ (temperature_of spread self.old.state).1 }
    {
        if self.below(spread.seldom) == 0 {
            901
        } else if spread.near {
            i32::from(self.below(8)) - 4
        } else {
            i32::from(self.below(1_501)) - 600
        }
    }

    // One house in four has no clamp.
    fn clamp(&mut self, spread: Spread) -> Option<i32>
        ensures value { result ≡ (clamp_of spread self.old.state).0 }
        ensures state { self.new.state ≡ (clamp_of spread self.old.state).1 }
    {
        if self.below(4) == 0 {
            None
        } else {
            Some(self.temperature(spread))
        }
    }

    // A reading drawn from that spread.
    pub fn reading(&mut self, spread: Spread) -> Reading
        ensures value { result ≡ (reading_of spread self.old.state).0 }
        ensures state { self.new.state ≡ (reading_of spread self.old.state).1 }
    {
        let probe = self.temperature(spread);
        let clamp = self.clamp(spread);
        let watts = u32::from(self.below(20_001));
        let flags = u32::from(self.below(spread.flags)) | COMMON_FLAGS;
        Reading {
            probe,
            clamp,
            watts,
            flags,
        }
    }
}
