ghost use Rattle.std.specs.Prelude.{◌≡◌};
ghost use Rattle.marker.specs.Marked.{takes, entry_on, remark_of, RemarkedBy};
ghost use Rattle.marker.specs.Rounds.{entry_in};

use crate::tables::{Table, Tables};
use lines::{Line, Marks};
use plan::Draft;

impl Table {
    // Whether that line is the one of the house.
    fn takes(&self, house: u8, line: usize) -> bool
        ensures { result ≡ takes (entry_in self.now house) line }
    {
        self.entry(usize::from(house))
            .is_some_and(|step| step.line == line)
    }
}

impl Tables {
    // The line of that number, marked anew: direct where its `to` takes it, back where its `from` does.
    fn remark(&self, number: usize, line: Line) -> Line
        ensures { result ≡ remark_of (entry_on self.now) number line }
    {
        let direct = self.direct.takes(line.to, number);
        let back = self.back.takes(line.from, number);
        Line {
            marks: Marks::of(direct, back),
            ..line
        }
    }

    // The draft with each line marked anew and the counters that follow.
    pub(crate) fn remarked(&self, draft: &Draft) -> Draft
        ensures { RemarkedBy draft.now (entry_on self.now) result }
    {
        let mut records = draft.records;
        for (number, line) in draft.list().iter().enumerate() {
            records[number] = self.remark(number, *line);
        }
        let mut marked = *draft;
        marked.records = records;
        marked.counted()
    }
}
