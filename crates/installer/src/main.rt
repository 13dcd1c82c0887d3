// Judges plan files: one `C HEX` or `M HEX` to a line of standard input.
#![tactic(auto)]

use anyhow::Context;
use installer_text::answers_to;
use std::io::Read;

const LONGEST_INPUT: u64 = 65_536;

fn main(rt: HostRuntime) -> anyhow::Result<()> {
    let mut input = Vec::new(rt.alloc());
    rt.stdin().take(LONGEST_INPUT).read_to_end(&mut input)?;
    let text = answers_to(rt.alloc(), &input)
        .ok()
        .context("no memory for the answers")?;
    print!(rt; "{text}")?;
    Ok(())
}
