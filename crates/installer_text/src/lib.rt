// What the installer's program prints: for each line of its input a verdict on a plan file, checked or marked anew.
#![tactic(auto)]

mod answers;
mod commands;
mod reports;

pub use answers::answers_to;
pub use commands::Command;
pub use reports::{file_line, report};
