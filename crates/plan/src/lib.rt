// The plan of a row: drafts in form, judged by the five rules of right marks; plan files, read and written.
#![tactic(auto)]

mod drafts;
mod form;
mod plans;
mod rules;

pub use drafts::Draft;
pub use plans::{Plan, read, rewrite};
pub use rules::Rule;
