ghost use Rattle.std.specs.Prelude.{◌≡◌, ℕ};
ghost use Rattle.quantity.specs.declared.words.Word.{Word};
ghost use Rattle.quantity.specs.Senses.{Sense, Laws};

use crate::readings::Reading;
use crate::words::Word;
use std::fmt;

// A question that is put to the whole row, and how its answer is made up house by house. What an implementation means
// is its `sense`; it owes the laws.
pub trait Quantity {
    // A house's part of the answer, or that of several houses together.
    type Value: Copy;

    // What is answered in the end.
    type Figures: Copy + fmt::Display;

    // The letter by which the quantity is asked for.
    const LETTER: char;

    ghost LETTER: { ℕ };

    ghost sense: { Sense Self.Value Word Self.Figures };

    // The value that a house and its reading give: nothing where either is beyond limits.
    fn value(house: usize, reading: Reading) -> Self::Value
        ensures { result ≡ sense.given house reading };

    // The value of no house.
    fn nothing() -> Self::Value
        ensures { result ≡ sense.nothing };

    // The value of two values together.
    fn join(a: Self::Value, b: Self::Value) -> Self::Value
        ensures { result ≡ sense.join a b };

    // The word by which a message carries a value.
    fn word(value: Self::Value) -> Word
        ensures { result ≡ sense.word value };

    // The value of a word; none where the word stands for no value.
    fn back(word: Word) -> Option<Self::Value>
        ensures { result ≡ sense.back word };

    fn figures(value: Self::Value) -> Self::Figures
        ensures { result ≡ sense.figures value };

    ghost laws: { Laws Self.Value Word Self.Figures sense };
}
