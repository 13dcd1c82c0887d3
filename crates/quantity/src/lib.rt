// What a house measures, the four quantities that a row is asked for, and the straight count of a list of readings.
#![tactic(auto)]

mod asked;
mod counts;
mod extremes;
mod flags;
mod load;
mod quantities;
mod readings;
mod sizes;
mod words;

pub use asked::letters;
pub use counts::straight_count;
pub use extremes::{Extreme, SizeFigures};
pub use flags::{FlagFigures, Flags, Sets};
pub use load::{Load, LoadFigures, Total};
pub use quantities::Quantity;
pub use readings::Reading;
pub use sizes::{Coldest, Gap, Measure};
pub use words::Word;
