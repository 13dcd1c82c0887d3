ghost use Rattle.std.specs.Prelude.{ℕ, ◌<◌};
ghost use Rattle.plan.specs.declared.rules.Rule.{Rule};
ghost use Rattle.plan.specs.Rules.{Keeps};

use crate::drafts::Draft;

mod access;
mod judge;
mod reader;
mod trips;
mod writer;

pub use reader::read;
pub use trips::rewrite;

// A plan whose marks and counters are right: no value of this type breaks one of the five rules.
#[derive(Clone, Copy)]
pub struct Plan {
    draft: Draft,
    ghost right: { (rule : Rule) (h : ℕ) → h < draft.houses → ∥ Keeps rule draft h ∥₁ },
}
