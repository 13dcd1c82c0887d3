// Cases on both sides of each limit of the plan file, beside a second judge.
#![tactic(auto)]

mod buffers;
mod cases;
mod second;
mod sweeps;

use buffers::buffers;
use cases::cases;
use std::io;
use sweeps::sweeps;

fn main(rt: HostRuntime) -> io::Result<()> {
    cases(&rt)?;
    buffers(&rt)?;
    sweeps(&rt)
}
