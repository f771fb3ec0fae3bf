// The program: asks both timing tests about every place of a table, many times over, so that their
// speed can be measured. What it prints sums up the answers.
#![tactic(auto)]

mod asking;
mod reading;

use asking::Tallies;
use reading::Task;
use std::io;

fn run(rt: &(impl AllocGlobal + Input + Print)) -> anyhow::Result<()> {
    let heap = rt.alloc();
    let text = io::read_to_string(heap, rt.reader())?;
    let task = Task::read(heap, text.as_str().trim_end())?;
    let Tallies { board, bus } = task.ask();
    println!(rt; "board {board}")?;
    println!(rt; "bus {bus}")?;
    Ok(())
}

fn main(rt: HostRuntime) -> anyhow::Result<()> {
    run(&rt)
}
