ghost use Rattle.std.specs.Prelude.{◌<◌};

use quantity::Reading;

// A house of a row, with its reading.
#[derive(Clone, Copy)]
pub(crate) struct House {
    pub(crate) number: usize,
    pub(crate) reading: Reading,
    ghost small: { number < 48 },
}
