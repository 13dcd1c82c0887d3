ghost use Rattle.std.specs.Prelude.{◌≡◌, true, [], MatchBool};
ghost use Rattle.row.specs.Rows.{state_of, new_state, AllEmpty, Fits};
ghost use Rattle.row.specs.Runs.{LedTo};

use crate::questions::Question;
use crate::rows::Row;
use carrier::Carrier;
use plan::Plan;
use quantity::{Quantity, Reading};

// Whether every line of the carrier is empty.
fn all_empty<C: Carrier>(carrier: &C) -> bool
    ensures { MatchBool result (AllEmpty (C.meaning carrier.now)) (AllEmpty (C.meaning carrier.now) → ⊥) }
{
    (0..carrier.lines()).all(|line| carrier.count(line) == 0)
}

// Whether the carrier fits the plan: its lines and its capacity are the plan's, and every line is empty.
fn is_fit<C: Carrier>(plan: &Plan, carrier: &C) -> bool
    ensures { MatchBool result (Fits plan.now (C.meaning carrier.now)) (Fits plan.now (C.meaning carrier.now) → ⊥) }
{
    carrier.lines() == plan.lines() && carrier.capacity() == plan.capacity() && all_empty(carrier)
}

impl<Q: Quantity, C: Carrier> Row<Q, C> {
    // A row as it is made: every reading is blank, no round was begun, and nothing waits.
    pub fn new(plan: Plan, carrier: C) -> Row<Q, C>
        ensures made { state_of C.meaning result ≡ new_state Q.sense plan result.fit (C.meaning carrier) }
        ensures fit { MatchBool result.fit (Fits plan (C.meaning carrier)) (Fits plan (C.meaning carrier) → ⊥) }
        ensures same { result.carrier ≡ carrier }
        ensures start { result.fit ≡ true → LedTo Q.sense C.meaning [] result }
    {
        let fit = is_fit(&plan, &carrier);
        Row {
            plan,
            fit,
            readings: [Reading::blank(); 48],
            question: Question::new(),
            carrier,
        }
    }
}
