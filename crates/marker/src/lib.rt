// The marker: it marks the lines of a row anew, by distances from the head and to it.
#![tactic(auto)]

mod marking;
mod marks;
mod rounds;
mod tables;

pub use marking::mark;
