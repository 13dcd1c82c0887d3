ghost use Rattle.std.specs.Prelude.{◌≡◌, ◌+◌, ◌≤◌, length, drop};
ghost use Rattle.words.specs.Parts.{front, lines};
ghost use Rattle.words.specs.Placed.{placed, left};

use crate::part::Part;

// Where the part ends that starts at that byte: at the next stop, or at the end of the text.
pub fn part_end(text: &[u8], from: usize, stop: u8) -> usize
    ensures place { result ≡ from + front stop (drop from text.now) }
    ensures within { from ≤ length text.now → result ≤ length text.now }
{
    text.iter()
        .skip(from)
        .position(|byte| *byte == stop)
        .map_or(text.len().max(from), |length| from + length)
}

// The parts of a text between its stops, one after another.
#[derive(Drop)]
pub struct Parts<'a> {
    pub(crate) rest: Option<Part<'a>>,
    pub(crate) stop: u8,
}

impl<'a> Iterator for Parts<'a> {
    ghost use Rattle.std.specs.Iterator.{YieldsFirstBy, item_count};
    ghost use Rattle.words.specs.Placed.{shown, left};

    type Item = Part<'a>;

    ghost next_gives = { YieldsFirstBy shown left };

    ghost remaining = { item_count left };

    fn next(&mut self) -> Option<Part<'a>> {
        let Part { text, at } = self.rest?;
        let end = part_end(text, at, self.stop);
        self.rest = if end < text.len() {
            Some(Part { text, at: end + 1 })
        } else {
            None
        };
        Some(Part {
            text: &text[..end],
            at,
        })
    }
}

// The lines of a text, each of which ends with byte 0A, but the last may lack it.
pub fn lines_of(text: &[u8]) -> Parts<'_>
    ensures { left result ≡ placed 0 (lines text.now) }
{
    let stop = b'\n';
    let Some((last, front)) = text.split_last() else {
        return Parts { rest: None, stop };
    };
    let text = if *last == stop { front } else { text };
    Parts {
        rest: Some(Part { text, at: 0 }),
        stop,
    }
}
