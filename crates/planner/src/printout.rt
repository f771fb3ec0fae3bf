// The text that the program prints.
ghost use Rattle.std.specs.Prelude.{◌≡◌, ◌≤◌, ◌++◌, IfOk, string_bytes, OnOk};
ghost use Rattle.chain.specs.Drafting.{contents};
ghost use Rattle.chain_file.specs.Format.{most_chains};
ghost use Rattle.planner.specs.Placement.{placement_refusal};
ghost use Rattle.planner.specs.Printout.{answer_text, chain_line, placed_text, printout, window_text, windows_text};
ghost use Rattle.planner.specs.Steps.{Ends, reader_text};

use super::placement::{check_pins, first_boards};
use chain::STAGES;
use chain::parts::{PartRow, TooLong, Windowed};
use chain_file::fields::FileChain;
use chain_file::readers::{Read, ReadError, Reader};
use std::alloc::{AllocError, Global};
use thiserror::Error;

// The text could not be made.
#[derive(Clone, Copy, Debug, Error)]
#[error("no memory for the print-out")]
pub struct NoMemory;

// By hand: no derive makes an error without fields of another.
impl From<AllocError> for NoMemory {
    fn from(_e: AllocError) -> NoMemory {
        NoMemory
    }
}

// Each of the functions that follow says in the library's words which text it adds; a word of our own
// for that would be as long.

// One window of a chain's line. No `Display` of `Windowed`, since that would have to show the part too,
// and a type around a window would be no plainer than this.
fn put_window(text: &mut String, part: Windowed) -> Result<(), AllocError>
    ensures { OnOk result (string_bytes text.new ≡ string_bytes text.old ++ window_text part) }
{
    let window = part.window;
    write!(text, " {window}")
}

// The windows of a chain's line. A loop: a type around the row, to have a `Display`, would be no plainer.
fn put_windows(text: &mut String, parts: &[Windowed]) -> Result<(), AllocError>
    ensures { OnOk result (string_bytes text.new ≡ string_bytes text.old ++ windows_text parts.now) }
{
    text.push_str(" windows")?;
    for part in parts {
        put_window(text, *part)?;
    }
    Ok(())
}

// A print-out that is being written, and what each chain's line needs: memory for its placement,
// and a row for its parts. So a line is written by a method: `fmt` has neither, nor an error for want
// of memory.
#[derive(Drop)]
struct Printer {
    heap: Global,
    text: String,
    row: PartRow<STAGES>,
}

impl Printer {
    // What stands in a chain's line after its name, once its pins are checked.
    fn put_placed(&mut self, chain: &FileChain, boards: &[u8]) -> Result<(), AllocError>
        ensures { OnOk result (string_bytes self.new.text ≡ string_bytes self.old.text ++ placed_text (contents chain.now) boards.now) }
    {
        // A match, since either answer is printed.
        match self.row.place(chain, boards) {
            Ok(()) => put_windows(&mut self.text, self.row.parts.as_slice()),
            Err(TooLong) => self.text.push_str(" long"),
        }
    }

    // What stands in a chain's line after its name.
    fn put_answer(&mut self, boards: u8, chain: &FileChain) -> Result<(), AllocError>
        ensures { OnOk result (string_bytes self.new.text ≡ string_bytes self.old.text ++ answer_text (placement_refusal boards chain.now.stages.items) (contents chain.now)) }
    {
        let stages = chain.stages.as_slice();
        // An `if let` and no `?`, since the error is what is printed.
        if let Err(why) = check_pins(boards, stages) {
            return write!(self.text, " {why}");
        }
        let placement = first_boards(self.heap, stages)?;
        self.put_placed(chain, placement.as_slice())
    }

    // The whole line of a chain.
    fn put_chain(&mut self, boards: u8, chain: &FileChain) -> Result<(), AllocError>
        ensures { OnOk result (string_bytes self.new.text ≡ string_bytes self.old.text ++ chain_line boards (contents chain.now)) }
    {
        let name = chain.heading.name;
        write!(self.text, "chain {name}")?;
        self.put_answer(boards, chain)?;
        self.text.push_str("\n")
    }

    // The lines of the chains that are left, up to a refusal.
    fn put_chains(&mut self, reader: &mut Reader) -> Result<(), ReadError>
        requires { reader.old.read ≤ most_chains }
        ensures { Ends (string_bytes self.old.text ++ reader_text reader.old) (string_bytes self.new.text) result }
    {
        let mut place = None;
        while let Read::Chain = reader.next(self.heap, &mut place)? {
            self.put_chain(reader.boards, place.as_ref().unwrap())?;
        }
        Ok(())
    }

    // The same, and the line of the refusal that ends them, if one does.
    fn put_records(&mut self, reader: &mut Reader) -> Result<(), NoMemory>
        requires { reader.old.read ≤ most_chains }
        ensures { OnOk result (string_bytes self.new.text ≡ string_bytes self.old.text ++ reader_text reader.old) }
    {
        // A match and no `?`, since one of the two errors is what is printed.
        match self.put_chains(reader) {
            Ok(()) => Ok(()),
            Err(ReadError::Refused(refusal)) => Ok(writeln!(self.text, "{refusal}")?),
            Err(ReadError::NoMemory) => Err(NoMemory),
        }
    }
}

// The whole print-out of a chain file.
pub fn report(heap: Global, bytes: &[u8]) -> Result<String, NoMemory>
    ensures { IfOk result (λ text. string_bytes text ≡ printout bytes.now) }
{
    // A match, since the error is what is printed.
    let mut reader = match Reader::open(bytes) {
        Ok(reader) => reader,
        Err(refusal) => return Ok(format!(in heap; "{refusal}\n")?),
    };
    let boards = reader.boards;
    let mut printer = Printer {
        heap,
        text: format!(in heap; "boards {boards}\n")?,
        row: PartRow::new(heap)?,
    };
    printer.put_records(&mut reader)?;
    Ok(printer.text)
}
