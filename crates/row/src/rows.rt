use crate::questions::Question;
use carrier::Carrier;
use plan::Plan;
use quantity::{Quantity, Reading};

mod calls;
mod checks;
mod making;
mod runs;

// A row of houses that is asked for one quantity: its plan, whether the carrier fitted when the row was made, each
// house's reading, the question, and the carrier.
#[derive(Drop)]
pub struct Row<Q: Quantity, C: Carrier> {
    plan: Plan,
    fit: bool,
    readings: [Reading; 48],
    question: Question<Q>,
    carrier: C,
}
