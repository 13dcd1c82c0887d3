// Texts taken apart: lines and words with their places, and bytes in hexadecimal capitals.
#![tactic(auto)]

mod hex;
mod part;
mod parts;

pub use hex::{from_hex, to_hex};
pub use part::Part;
pub use parts::{Parts, lines_of, part_end};
