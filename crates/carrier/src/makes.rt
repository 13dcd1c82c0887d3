ghost use Rattle.std.specs.Prelude.{◌≡◌, List};
ghost use Rattle.quantity.specs.declared.words.Word.{Word};
ghost use Rattle.carrier.specs.declared.messages.Message.{Message};
ghost use Rattle.carrier.specs.Makes.{Order, Picks};

use crate::messages::Message;
use quantity::Word;

// A make of carrier: which message of a line it takes.
pub trait Make {
    ghost order: { Order Word };

    // What it takes in the subject's words: the messages on a line, the one of them that is taken, and the rest.
    ghost takes: { List (Message Word) → Message Word → List (Message Word) → Type 0 };

    // Of two messages on a line, whether the one put earlier is taken first.
    fn earlier_first(earlier: Message<Word>, later: Message<Word>) -> bool
        ensures { result ≡ order earlier later };

    // What is picked by the order is what it takes.
    ghost told: { (xs : List (Message Word)) (x : Message Word) (rest : List (Message Word)) → Picks order xs x rest → takes xs x rest };
}
