ghost use Rattle.std.specs.Prelude.{◌≡◌, ◌+◌, ◌<◌, ◌≤◌};
ghost use Rattle.samples.specs.Draws.{next, drawn};

// A linear congruential generator; the upper 16 bits of its state are drawn.
#[derive(Drop)]
pub struct Source {
    pub state: u64,
}

impl Source {
    // A number below the limit; 0 where the limit is 0.
    pub fn below(&mut self, limit: u16) -> u16
        ensures value { result ≡ drawn limit self.new.state }
        ensures within { 0 < limit → result < limit }
        ensures state { self.new.state ≡ next self.old.state }
    {
        self.state = self
            .state
            .wrapping_mul(6_364_136_223_846_793_005)
            .wrapping_add(1_442_695_040_888_963_407);
        let high = (self.state >> 48) as u16;
        high.checked_rem(limit).unwrap_or(0)
    }

    // A number from 1 to the limit; 1 where the limit is 0.
    pub fn one_to(&mut self, limit: u16) -> u16
        ensures value { result ≡ 1 + drawn limit self.new.state }
        ensures within { 0 < limit → result ≤ limit }
        ensures state { self.new.state ≡ next self.old.state }
    {
        1 + self.below(limit)
    }
}
