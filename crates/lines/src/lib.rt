// The lines of a row: their ends, their marks, and the two trees that the marks make.
#![tactic(auto)]

mod lines;

pub use lines::{End, Line, Marks, NoMarks, Way};
