// What the programs of cases share: plan files, rows that are made line by line, and a source of pseudo-random numbers
// and readings.
#![tactic(auto)]

mod edits;
mod files;
mod readings;
mod sketches;
mod sources;

pub use edits::edited;
pub use files::{LONGEST, ONE_HOUSE, TERRACE, TWO_HOUSES};
pub use readings::{BLANK, Spread};
pub use sketches::Sketch;
pub use sources::Source;
