ghost use Rattle.std.specs.Prelude.{◌≡◌, ◌*◌, length, take, IfOk};
ghost use Rattle.std.specs.List.{flat_map};
ghost use Rattle.plan.specs.Files.{file_of, header, record_of};
ghost use Rattle.plan.specs.Writers.{Written};

use crate::drafts::Draft;
use crate::plans::Plan;
use fault::{Cause, Fault};
use lines::Line;

// The three bytes of a line.
fn record_bytes(line: Line) -> [u8; 3]
    ensures { result ≡ record_of line }
{
    [line.from, line.to, line.marks.number()]
}

// The records of the lines, one after the other.
fn write_records(part: &mut [u8], lines: &[Line])
    requires { length part.old ≡ 3 * length lines.now }
    ensures { part.new ≡ flat_map record_of lines.now }
{
    for (i, line) in lines.iter().enumerate() {
        part[3 * i..3 * i + 3].copy_from_slice(&record_bytes(*line));
    }
}

impl Draft {
    // The nine bytes of the header.
    fn header(&self) -> [u8; 9]
        ensures { result ≡ header self.now.houses self.now.lines self.now.capacity }
    {
        let n = self.houses as u8;
        let [m_high, m] = (self.lines as u16).to_be_bytes();
        let k = self.capacity as u8;
        [b'R', b'O', b'W', 0, 1, n, m_high, m, k]
    }
}

impl Plan {
    // Fills the front of the buffer with the plan's file and answers its length; the rest is untouched. Refuses a
    // buffer that is too short, and then writes nothing.
    pub fn write(&self, buffer: &mut [u8]) -> Result<usize, Fault>
        ensures wrote { Written self.now buffer.old result buffer.new }
        ensures front { IfOk result (λ n. take n buffer.new ≡ file_of self.now.draft) }
    {
        let draft = &self.draft;
        let end = 9 + 3 * draft.lines;
        let length = end + draft.houses;
        if buffer.len() < length {
            return Err(Fault::new(Cause::BufferShort, length));
        }
        buffer[..9].copy_from_slice(&draft.header());
        write_records(&mut buffer[9..end], draft.list());
        buffer[end..length].copy_from_slice(&draft.counters[..draft.houses]);
        Ok(length)
    }
}
