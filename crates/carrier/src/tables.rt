ghost use Rattle.std.specs.Prelude.{◌≡◌, replicate, None};

use crate::messages::Message;
use quantity::Word;

// Four places for each of 128 lines.
#[derive(Clone, Copy)]
pub(crate) struct Table {
    pub(crate) places: [Option<Message<Word>>; 512],
}

impl Table {
    pub(crate) fn new() -> Table
        ensures { result.places ≡ replicate 512 None }
    {
        Table {
            places: [None; 512],
        }
    }
}
