ghost use Rattle.std.specs.Prelude.{◌≡◌};
ghost use Rattle.quantity.specs.Readings.{blank_reading, temperate, clamp_temperate, in_limits, usable, faulty, coil_rule, gap_rule, coil, gap};

// What a house measures. Temperatures are in tenths of a degree; a house without a clamp has no clamp temperature.
#[derive(Clone, Copy, PartialEq, Eq, Debug, Default)]
pub struct Reading {
    pub probe: i32,
    pub clamp: Option<i32>,
    pub watts: u32,
    pub flags: u32,
}

pub(crate) const MOST_HOUSES: usize = 48;

pub(crate) const LOWEST: i32 = -600;

const HIGHEST: i32 = 900;

const MOST_WATTS: u32 = 20_000;

const MOST_FLAGS: u32 = 65_535;

// The flag bit of the probe's fault.
const FAULT_BIT: u32 = 8;

impl Reading {
    // What a house has that was given no reading.
    pub fn blank() -> Reading
        ensures { result ≡ blank_reading }
    {
        Reading::default()
    }

    // Whether every part of the reading is in its limits.
    pub fn in_limits(self) -> bool
        ensures { result ≡ in_limits self }
    {
        is_temperate(self.probe)
            && self.clamp.is_none_or(is_temperate)
            && self.watts <= MOST_WATTS
            && self.flags <= MOST_FLAGS
    }

    // Whether a row can have that house, and its reading is in limits.
    pub fn usable(self, house: usize) -> bool
        ensures { result ≡ usable house self }
    {
        house < MOST_HOUSES && self.in_limits()
    }

    // Whether the probe is at fault.
    pub fn faulty(self) -> bool
        ensures { result ≡ faulty self }
    {
        self.flags & FAULT_BIT != 0
    }

    // The coil temperature.
    pub fn coil(self) -> i32
        ensures { result ≡ coil self }
    {
        coil_rule(self.probe, self.clamp, self.faulty())
    }

    // The difference of probe and clamp without sign; none without a clamp.
    pub fn gap(self) -> Option<u32>
        ensures { result ≡ gap self }
    {
        gap_rule(self.probe, self.clamp)
    }
}

fn is_temperate(temperature: i32) -> bool
    ensures { result ≡ temperate temperature }
{
    (LOWEST..=HIGHEST).contains(&temperature)
}

fn coil_rule(probe: i32, clamp: Option<i32>, fault: bool) -> i32
    ensures { result ≡ coil_rule probe clamp fault }
{
    match clamp {
        None => probe,
        Some(clamp) if fault => clamp,
        Some(clamp) => probe.min(clamp),
    }
}

fn gap_rule(probe: i32, clamp: Option<i32>) -> Option<u32>
    ensures { result ≡ gap_rule probe clamp }
{
    Some(probe.abs_diff(clamp?))
}
