// Files marked by the library beside a second marker.
#![tactic(auto)]

mod bodies;
mod cases;
mod random;
mod second;
mod shown;
mod trees;

use cases::cases;
use random::random_files;
use std::io;

fn main(rt: HostRuntime) -> io::Result<()> {
    cases(&rt)?;
    random_files(&rt)
}
