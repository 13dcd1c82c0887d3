ghost use Rattle.std.specs.Prelude.{◌≡◌, ◌-◌, ◌*◌, ◌<◌, ◌≤◌, ◌++◌, length, replicate};
ghost use Rattle.plan.specs.Readers.{LimitsChecked, ReadHeader, ReadRecord, ReadRecords, Formed};

use crate::drafts::Draft;
use fault::{Cause, Fault};
use lines::{Line, Marks};

// The numbers of a file's header: n, m and k.
#[derive(Clone, Copy)]
struct Size {
    houses: usize,
    lines: usize,
    capacity: usize,
}

impl Size {
    // Refuses the first of n, m and k that is beyond its limits.
    fn within_limits(self) -> Result<(), Fault>
        ensures { LimitsChecked self.houses self.lines self.capacity result }
    {
        if !(1..=48).contains(&self.houses) {
            return Err(Fault::new(Cause::BeyondLimits, 5));
        }
        if self.lines > 128 {
            return Err(Fault::new(Cause::BeyondLimits, 6));
        }
        if !(1..=4).contains(&self.capacity) {
            return Err(Fault::new(Cause::BeyondLimits, 8));
        }
        Ok(())
    }
}

// The header of a file that has the length that it says.
fn read_header(file: &[u8]) -> Result<Size, Fault>
    ensures { ReadHeader file.now result }
{
    let [r, o, w, version_high, version, n, m_high, m, k, rest @ ..] = file else {
        return Err(Fault::new(Cause::FileShort, file.len()));
    };
    if *r != b'R' {
        return Err(Fault::new(Cause::WrongMark, 0));
    }
    if *o != b'O' {
        return Err(Fault::new(Cause::WrongMark, 1));
    }
    if *w != b'W' {
        return Err(Fault::new(Cause::WrongMark, 2));
    }
    if *version_high != 0 || *version != 1 {
        return Err(Fault::new(Cause::WrongVersion, 3));
    }
    let size = Size {
        houses: *n as usize,
        lines: u16::from_be_bytes([*m_high, *m]) as usize,
        capacity: *k as usize,
    };
    size.within_limits()?;
    if rest.len() != 3 * size.lines + size.houses {
        return Err(Fault::new(Cause::WrongLength, file.len()));
    }
    Ok(size)
}

// A line from its three bytes, the first of which is the file's byte `at`.
fn read_record(bytes: &[u8; 3], houses: usize, at: usize) -> Result<Line, Fault>
    requires { at < 1000 }
    ensures { ReadRecord bytes.now houses at result }
{
    let [from, to, marks] = *bytes;
    if from as usize >= houses {
        return Err(Fault::new(Cause::WrongRecord, at));
    }
    if to as usize >= houses || to == from {
        return Err(Fault::new(Cause::WrongRecord, at + 1));
    }
    let Ok(marks) = Marks::try_from(marks) else {
        return Err(Fault::new(Cause::WrongRecord, at + 2));
    };
    Ok(Line { from, to, marks })
}

// The lines of a file from its part that starts at byte 9.
fn read_records(part: &[u8], houses: usize, lines: usize) -> Result<[Line; 128], Fault>
    requires { (3 * lines ≤ length part.now) × (lines ≤ 128) }
    ensures { ReadRecords part.now houses lines result }
{
    let mut records = [Line::BLANK; 128];
    let (parts, _) = part.as_chunks::<3>();
    for (i, bytes) in parts[..lines].iter().enumerate() {
        records[i] = read_record(bytes, houses, 9 + 3 * i)?;
    }
    Ok(records)
}

// The counters from the last part of a file; what no house has is 0.
fn read_counters(part: &[u8]) -> [u8; 48]
    requires { length part.now ≤ 48 }
    ensures { result ≡ part.now ++ replicate (48 - length part.now) 0 }
{
    let mut counters = [0; 48];
    counters[..part.len()].copy_from_slice(part);
    counters
}

impl Draft {
    // The draft whose file this is: the form is checked, the marks and counters are taken as they are.
    pub fn read(file: &[u8]) -> Result<Draft, Fault>
        ensures { Formed file.now result }
    {
        let Size {
            houses,
            lines,
            capacity,
        } = read_header(file)?;
        let records = read_records(&file[9..], houses, lines)?;
        let counters = read_counters(&file[9 + 3 * lines..]);
        Ok(Draft {
            houses,
            lines,
            capacity,
            records,
            counters,
        })
    }
}
