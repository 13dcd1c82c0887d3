ghost use Rattle.std.specs.Prelude.{List};
ghost use Rattle.quantity.specs.declared.words.Word.{Word};
ghost use Rattle.carrier.specs.declared.messages.Message.{Message};
ghost use Rattle.carrier.specs.Makes.{TakesEarliest, TakesLatest};

use crate::carriers::Carrier;
use crate::radios::Radio;
use crate::wires::Wire;

// Each carrier is of the make that its name says: what a wire picks is the earliest put, and what a radio picks a
// response before a request, and among equals the latest put.
#[tactic(auto, using(crate::specs::Picks::wire_takes, crate::specs::Picks::radio_takes))]
pub fn carriers_take_as_named()
    ensures wire { (xs : List (Message Word)) (x : Message Word) (rest : List (Message Word)) → ⟦<Wire as Carrier>⟧.pick xs x rest → TakesEarliest xs x rest }
    ensures radio { (xs : List (Message Word)) (x : Message Word) (rest : List (Message Word)) → ⟦<Radio as Carrier>⟧.pick xs x rest → TakesLatest xs x rest }
{}
