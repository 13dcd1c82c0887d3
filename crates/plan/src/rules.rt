ghost use Rattle.std.specs.Prelude.{◌≡◌};
ghost use Rattle.plan.specs.Causes.{cause_of};

use fault::Cause;
use lines::Way;

// The five rules of right marks: each way has two, and the counters have one.
#[derive(Clone, Copy)]
pub enum Rule {
    Single(Way),
    Leading(Way),
    Counters,
}

impl Rule {
    // The cause of a refusal where the rule is broken.
    pub fn cause(self) -> Cause
        ensures { result ≡ cause_of self }
    {
        match self {
            Rule::Single(Way::Direct) => Cause::DirectIn,
            Rule::Leading(Way::Direct) => Cause::DirectWay,
            Rule::Single(Way::Back) => Cause::BackOut,
            Rule::Leading(Way::Back) => Cause::BackWay,
            Rule::Counters => Cause::WrongCounter,
        }
    }
}
