ghost use Rattle.std.specs.Prelude.{is_err};
ghost use Rattle.marker.specs.Marked.{entry_on, BothComplete, Complete, MarkAnswer, MarkDraft, MarkPlan, MarksAgain, MarksPlanAgain, RefusesCutOff};
ghost use Rattle.marker.specs.Rounds.{entry_in};

use crate::tables::{Table, Tables};
use fault::{Cause, Fault};
use plan::{Draft, Plan};

impl Table {
    // Refuses the lowest house but the head for which the table has no line.
    fn check(&self, houses: usize, cause: Cause) -> Result<(), Fault>
        ensures { Complete (entry_in self.now) houses cause result }
    {
        match (1..houses).find(|house| self.entry(*house).is_none()) {
            Some(house) => Err(Fault::new(cause, house)),
            None => Ok(()),
        }
    }
}

impl Tables {
    // Refuses the lowest house to which there is no way from the head, and then the lowest from which there is none to it.
    fn check(&self, houses: usize) -> Result<(), Fault>
        ensures { BothComplete (entry_on self.now) houses result }
    {
        self.direct.check(houses, Cause::NoWayFromHead)?;
        self.back.check(houses, Cause::NoWayToHead)
    }
}

// The plan of the draft marked anew, or the lowest house that is cut off.
fn plan_of(draft: &Draft) -> Result<Plan, Fault>
    ensures { MarkDraft draft.now result }
{
    let tables = Tables::search(draft);
    tables.check(draft.houses)?;
    tables.remarked(draft).judge()
}

// The plan of the file marked anew, or why it is refused.
fn marked_plan(file: &[u8]) -> Result<Plan, Fault>
    ensures marks { MarkPlan file.now result }
    ensures cut { RefusesCutOff file.now (is_err result) }
    ensures again { MarksPlanAgain file.now result }
{
    let draft = Draft::read(file)?;
    plan_of(&draft)
}

// Fills the place with the plan of the file marked anew: its own marks and counters are ignored. Refuses a file that is
// not in form, and then the lowest house that is cut off, from the head before to the head; a refusal leaves the place as
// it was. A file in form is refused exactly when some house is cut off, and marking the file of a marked plan gives that
// plan again.
pub fn mark(file: &[u8], place: &mut Plan) -> Result<(), Fault>
    ensures marks { MarkAnswer file.now place.old result place.new }
    ensures cut { RefusesCutOff file.now (is_err result) }
    ensures again { MarksAgain file.now result place.new }
{
    *place = marked_plan(file)?;
    Ok(())
}
