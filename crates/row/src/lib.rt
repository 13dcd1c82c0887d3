// The row: a plan, a quantity and a carrier, and its five calls.
#![tactic(auto)]

mod houses;
mod questions;
mod rows;
mod waiting;

pub use rows::Row;
