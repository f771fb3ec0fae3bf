// The program: reads a chain file from standard input and prints the windows of every chain in
// it. The text is made by a call whose contract gives every byte; main reads, calls and prints.
#![tactic(auto)]

mod placement;
mod printout;
#[cfg(test)]
mod tests;

use printout::report;
use std::io::Read;

// One byte more than the longest file has, so that a longer one is told from it.
const MOST_BYTES: u64 = 1_011;

fn main(rt: HostRuntime) -> anyhow::Result<()> {
    let heap = rt.alloc();
    let mut bytes = Vec::new(heap);
    rt.stdin().take(MOST_BYTES).read_to_end(&mut bytes)?;
    rt.print(report(heap, bytes.as_slice())?)?;
    Ok(())
}
