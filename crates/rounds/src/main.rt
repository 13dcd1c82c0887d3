// Rounds of a row: one call by call, cases on both sides of each limit, and random rounds beside a straight count.
#![tactic(auto)]

mod cases;
mod logs;
mod makes;
mod plans;
mod random;
mod shown;
mod unfit;
mod whole;

use cases::limit_cases;
use plans::ring;
use random::random_rounds;
use std::io;
use unfit::unfit_rows;
use whole::whole_rounds;

fn main(rt: HostRuntime) -> io::Result<()> {
    let one = ring(rt.alloc(), 1)?;
    let two = ring(rt.alloc(), 2)?;
    whole_rounds(&rt, &two)?;
    limit_cases(&rt, &one, &two)?;
    unfit_rows(&rt, &one, &two)?;
    random_rounds(&rt)
}
