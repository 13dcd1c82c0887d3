ghost use Rattle.std.specs.Prelude.{◌≤◌, length};

use crate::parts::Parts;

// A part of a text: the text as far as the part's end, and the byte where the part starts.
#[derive(Clone, Copy)]
pub struct Part<'a> {
    pub(crate) text: &'a [u8],
    pub at: usize,
    ghost within: { at ≤ length text.now },
}

impl<'a> Part<'a> {
    ghost use Rattle.std.specs.Prelude.{◌≡◌, ◌+◌};
    ghost use Rattle.words.specs.Parts.{words};
    ghost use Rattle.words.specs.Placed.{bytes_of, placed, left};

    // The part's own bytes.
    pub fn bytes(self) -> &'a [u8]
        ensures { result.now ≡ bytes_of self.entry }
    {
        &self.text[self.at..]
    }

    // The byte behind the part's last.
    pub fn end(self) -> usize
        ensures { result ≡ self.entry.at + length (bytes_of self.entry) }
    {
        self.text.len()
    }

    // The words of the part, which single spaces part.
    pub fn words(self) -> Parts<'a>
        ensures { left result ≡ placed self.entry.at (words (bytes_of self.entry)) }
    {
        Parts {
            rest: Some(self),
            stop: b' ',
        }
    }
}
