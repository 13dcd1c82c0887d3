ghost use Rattle.std.specs.Prelude.{◌≡◌, List, length};
ghost use Rattle.quantity.specs.declared.words.Word.{Word};
ghost use Rattle.carrier.specs.declared.messages.Message.{Message};
ghost use Rattle.carrier.specs.Meanings.{Meaning, on, PutAnswer, TakeAnswer, Without, Picked};

use crate::messages::Message;
use fault::Fault;
use quantity::Word;

// What carries messages along the lines. The code above it knows a carrier by its meaning alone.
pub trait Carrier: Drop {
    ghost meaning: { Self → Meaning Word };

    // The carrier's own pick: the messages on a line, the one of them that is taken, and the rest.
    ghost pick: { List (Message Word) → Message Word → List (Message Word) → Type 0 };

    // The number of lines, m.
    fn lines(&self) -> usize
        ensures { result ≡ length (meaning self.now).lists };

    // The capacity of a line, k.
    fn capacity(&self) -> usize
        ensures { result ≡ (meaning self.now).capacity };

    // How many messages are on the line; none on a line that is not there.
    fn count(&self, line: usize) -> usize
        ensures { result ≡ length (on (meaning self.now) line) };

    // Adds the message at the end of the line's list. Refuses a line that is not there, and one that holds k.
    fn put(&mut self, line: usize, message: Message<Word>) -> Result<(), Fault>
        ensures { PutAnswer (meaning self.old) line message result (meaning self.new) };

    // Takes a message off the line, by the carrier's own pick. Refuses a line that is not there, and an empty one.
    fn take(&mut self, line: usize) -> Result<Message<Word>, Fault>
        ensures takes { TakeAnswer (meaning self.old) line result (meaning self.new) }
        ensures picks { Picked pick (meaning self.old) line result (meaning self.new) };

    // What is taken was on the line, and the rest keep their order.
    ghost among: { (xs : List (Message Word)) (x : Message Word) (ys : List (Message Word)) → pick xs x ys → Without xs x ys };
}
