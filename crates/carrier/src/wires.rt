ghost use Rattle.carrier.specs.Makes.{wire_order, TakesEarliest};
ghost use Rattle.carrier.specs.Picks.{wire_takes};

use crate::makes::Make;
use crate::messages::Message;
use crate::stores::Store;
use quantity::Word;

// The carrier that takes the earliest put.
pub type Wire = Store<EarliestPut>;

pub struct EarliestPut;

impl Make for EarliestPut {
    ghost order = { wire_order };

    ghost takes = { TakesEarliest };

    ghost told = { wire_takes };

    fn earlier_first(_earlier: Message<Word>, _later: Message<Word>) -> bool {
        true
    }
}
