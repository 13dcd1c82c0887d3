// The rules of a round and the law of its runs: definitions and a theorem, with the types that they speak of and the texts
// of a call and its answer.
#![tactic(auto)]

mod calls;
mod law;
mod mistakes;
mod rounds;
mod shown;

pub use calls::{Answer, Call, Delivery, Exchange, Report};
pub use law::{any_calls_run, runs_are_lawful};
pub use mistakes::mistakes_are_excluded;
pub use rounds::{Round, Standing, Waiting};
