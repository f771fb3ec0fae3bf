// Reading a chain file, record by record.
ghost use Rattle.std.specs.Prelude.{◌≡◌, ◌+◌, ◌<◌, true, length, nat_lt};
ghost use Rattle.chain_file.specs.Format.{body_size, most_chains, size_kept};
ghost use Rattle.chain_file.specs.Reading.{Opens, Reads};
ghost use Rattle.chain_file.specs.Steps.{Checks, Cuts, Heads, RecordChecks, Records};

use super::fields::{FileChain, build, check_rows, split_body};
use super::readers::{Read, ReadError, Reader, RecordRefusal};
use super::refusals::FileRefusal;
use chain::headings::Heading;
use chain::{BOARDS, STAGES};
use std::alloc::Global;

const VERSION: u8 = 1;

// The most chains of a file.
const MOST_CHAINS: u8 = 16;

// The bytes of a body of `stages` stages.
fn body_size(stages: usize) -> usize
    requires { stages < 256 }
    ensures { result ≡ body_size stages }
{
    7 + 9 * stages
}

// Whether a body of 1 to 6 stages can have this size.
fn is_body_size(size: usize) -> bool
    ensures { result ≡ size_kept size }
{
    size % 9 == 7 && body_size(1) <= size && size <= body_size(STAGES)
}

// Whether one record more may be read.
fn has_room(read: u8) -> bool
    ensures { result ≡ nat_lt read most_chains }
{
    read < MOST_CHAINS
}

// The heading of the chain that a body says, and the bytes of its stages: all is checked.
fn check_body(body: &[u8]) -> Result<(Heading, &[u8]), FileRefusal>
    requires { size_kept (length body.now) ≡ true }
    ensures { Checks body.now result }
{
    let (head, rest) = split_body(body).unwrap();
    if body_size(usize::from(head.stages)) != body.len() {
        let length = body.len() as u16;
        return Err(FileRefusal::RecordSize { length });
    }
    let heading = Heading::new(head.name, head.period, head.deadline)?;
    check_rows(rest)?;
    Ok((heading, rest))
}

// The board count in a file's header, its first two bytes, and the bytes after it.
fn read_header(bytes: &[u8]) -> Result<(u8, &[u8]), FileRefusal>
    ensures { Heads bytes.now result }
{
    let [version, rest @ ..] = bytes else {
        return Err(FileRefusal::TooShort);
    };
    if *version != VERSION {
        return Err(FileRefusal::Version { version: *version });
    }
    let [boards, records @ ..] = rest else {
        return Err(FileRefusal::TooShort);
    };
    if *boards < 1 || *boards > BOARDS {
        return Err(FileRefusal::Boards { boards: *boards });
    }
    Ok((*boards, records))
}

impl<'a> Reader<'a> {
    // Cuts the next record into its body and the bytes after it.
    fn cut(&self) -> Result<(&'a [u8], &'a [u8]), FileRefusal>
        ensures { Cuts self.now.read self.now.rest.now result }
    {
        if !has_room(self.read) {
            return Err(FileRefusal::TooManyChains);
        }
        let [high, low, rest @ ..] = self.rest else {
            return Err(FileRefusal::TooShort);
        };
        let length = u16::from_be_bytes([*high, *low]);
        let size = usize::from(length);
        if !is_body_size(size) {
            return Err(FileRefusal::RecordSize { length });
        }
        if rest.len() < size {
            return Err(FileRefusal::TooShort);
        }
        Ok(rest.split_at(size))
    }

    // The heading of the chain that the next record says, the bytes of its stages, and the bytes
    // after the record: all of it is checked.
    fn check_record(&self) -> Result<(Heading, &'a [u8], &'a [u8]), FileRefusal>
        ensures { RecordChecks self.now.read self.now.rest.now result }
    {
        let (body, rest) = self.cut()?;
        let (heading, stages) = check_body(body)?;
        Ok((heading, stages, rest))
    }

    // The chain of the next record, and the bytes after it. The record is checked whole before
    // memory is taken for its chain.
    fn read_record(&self, heap: Global) -> Result<(FileChain, &'a [u8]), ReadError>
        requires { 0 < length self.now.rest.now }
        ensures { Records self.now.read self.now.rest.now result }
    {
        let at = u16::from(self.read) + 1;
        let (heading, stages, rest) = self
            .check_record()
            .map_err(|why| RecordRefusal { at, why })?;
        let chain = build(heap, heading, stages)?;
        Ok((chain, rest))
    }

    // Opens a file: its first two bytes are the version and the board count.
    pub fn open(bytes: &'a [u8]) -> Result<Reader<'a>, RecordRefusal>
        ensures { Opens bytes.now result }
    {
        let (boards, rest) = read_header(bytes).map_err(|why| RecordRefusal { at: 0, why })?;
        Ok(Reader {
            boards,
            read: 0,
            rest,
        })
    }

    // Reads one record into a chain place, or says that the end is reached.
    pub fn next(&mut self, heap: Global, place: &mut Option<FileChain>) -> Result<Read, ReadError>
        ensures { Reads self.old self.new place.old place.new result }
    {
        if self.rest.is_empty() {
            return Ok(Read::End);
        }
        let (chain, rest) = self.read_record(heap)?;
        self.rest = rest;
        self.read += 1;
        *place = Some(chain);
        Ok(Read::Chain)
    }
}
