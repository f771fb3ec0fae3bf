// The program: reads questions about timing tests from standard input, a line each, and prints the
// answer to each. It serves to compare the proved tests with a second version of them.
#![tactic(auto)]

mod answers;
mod questions;

use answers::Replies;
use questions::Question;
use std::io::{self, BufRead, BufReader};
use timing::refusals::ItemRefusal;

// Prints an answer as a line: a match, since a refusal is printed too.
fn print_answer(rt: &impl Print, answer: &Result<Replies, ItemRefusal>) -> io::Result<()> {
    match answer {
        Ok(replies) => println!(rt; "{replies}"),
        Err(refusal) => println!(rt; "{refusal}"),
    }
}

// Answers line after line. By a buffer of its own: `rt.lines` reads a pipe byte by byte.
fn answer_lines(rt: &(impl AllocGlobal + Input + Print)) -> anyhow::Result<()> {
    let heap = rt.alloc();
    for line in BufReader::new(heap, rt.reader())?.lines(heap) {
        let question = Question::read(heap, line?.as_str())?;
        print_answer(rt, &question.answer())?;
    }
    Ok(())
}

fn main(rt: HostRuntime) -> anyhow::Result<()> {
    answer_lines(&rt)
}
