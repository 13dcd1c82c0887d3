// Cases on both sides of each limit of the quantities and of the carriers, beside a second count.
#![tactic(auto)]

mod carriers;
mod counts;
mod quantities;
mod random;
mod readings;

use carriers::carriers;
use quantities::quantity_cases;
use random::random_lists;
use std::io;

fn main(rt: HostRuntime) -> io::Result<()> {
    quantity_cases(&rt)?;
    random_lists(&rt)?;
    carriers(&rt)
}
