ghost use Rattle.std.specs.Prelude.{◌≡◌, ◌<◌, ◌≤◌, MatchOption, slice_index, slice_index_or};
ghost use Rattle.lines.specs.Lines.{blank, serves};
ghost use Rattle.plan.specs.Plans.{OneHouse};
ghost use Rattle.plan.specs.Rules.{lines_of, lowest};

use crate::drafts::Draft;
use crate::plans::Plan;
use lines::{Line, Way};

impl Plan {
    // A plan place as it starts: one house, no line, capacity 1.
    pub fn new() -> Plan
        ensures { OneHouse result }
    {
        Plan {
            draft: Draft {
                houses: 1,
                lines: 0,
                capacity: 1,
                records: [Line::BLANK; 128],
                counters: [0; 48],
            },
        }
    }

    // The number of houses, n.
    pub fn houses(&self) -> usize
        ensures { result ≡ self.now.draft.houses }
    {
        self.draft.houses
    }

    // The number of lines, m.
    pub fn lines(&self) -> usize
        ensures { result ≡ self.now.draft.lines }
    {
        self.draft.lines
    }

    // The capacity of a line, k.
    pub fn capacity(&self) -> usize
        ensures { result ≡ self.now.draft.capacity }
    {
        self.draft.capacity
    }

    // The lines, in the order of their numbers.
    pub fn list(&self) -> &[Line]
        ensures { result.now ≡ lines_of self.now.draft }
    {
        self.draft.list()
    }

    // The line of that number, or none beyond the plan.
    pub fn line(&self, line: usize) -> Option<Line>
        ensures { MatchOption result (self.now.draft.lines ≤ line) (λ x. (line < self.now.draft.lines) × (x ≡ slice_index_or self.now.draft.records line blank)) }
    {
        self.list().get(line).copied()
    }

    // The counter of the house, or none beyond the plan.
    pub fn counter(&self, house: usize) -> Option<u8>
        ensures { MatchOption result (self.now.draft.houses ≤ house) (λ x. (house < self.now.draft.houses) × (x ≡ slice_index self.now.draft.counters house)) }
    {
        self.draft.counters[..self.houses()].get(house).copied()
    }

    // The number of the direct line that enters the house, or of the back line that leaves it; none for the head, and
    // none beyond the plan.
    pub fn server(&self, way: Way, house: usize) -> Option<usize>
        ensures { result ≡ lowest (serves way house) (lines_of self.now.draft) }
    {
        self.draft.server(way, house)
    }
}
