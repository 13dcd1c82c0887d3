// A refusal: its number, its place and the layer that refuses.
#![tactic(auto)]

mod causes;
mod faults;

pub use causes::{Cause, Layer};
pub use faults::Fault;
