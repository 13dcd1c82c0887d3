ghost use Rattle.std.specs.Prelude.{◌^◌, ◌<◌};

// A value's word, as a message carries it.
#[derive(Clone, Copy, PartialEq, Eq, Debug)]
pub struct Word {
    pub bits: u64,
    ghost fits: { bits < 2 ^ 64 },
}
