ghost use Rattle.std.specs.Prelude.{is_ok};
ghost use Rattle.plan.specs.Readers.{AcceptsTrees, Own, OwnPlan, Read, ReadPlan};

use crate::drafts::Draft;
use crate::plans::Plan;
use fault::Fault;

// The plan whose file this is, or why the file is refused.
pub(crate) fn plan_in(file: &[u8]) -> Result<Plan, Fault>
    ensures reads { ReadPlan file.now result }
    ensures own { OwnPlan file.now result }
    ensures trees { AcceptsTrees file.now (is_ok result) }
{
    Draft::read(file)?.judge()
}

// Fills the place with the plan whose file this is, or refuses it and leaves the place as it was. The file of a plan
// is never refused, and gives that plan. A file in form is accepted exactly when its marks are two spanning trees with
// counters.
pub fn read(file: &[u8], place: &mut Plan) -> Result<(), Fault>
    ensures reads { Read file.now place.old result place.new }
    ensures own { Own file.now result place.new }
    ensures trees { AcceptsTrees file.now (is_ok result) }
{
    *place = plan_in(file)?;
    Ok(())
}
