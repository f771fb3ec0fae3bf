// A reader, and what its calls answer.
use super::refusals::FileRefusal;
use chain::refusals::Refusal;
use std::alloc::AllocError;
use std::fmt;

// A chain file that is read record by record: `read` records are read, and `rest` is what is left.
#[derive(Drop)]
pub struct Reader<'a> {
    pub boards: u8,
    pub read: u8,
    pub rest: &'a [u8],
}

// A chain was put into its place, or the file is at its end. A rule of the project: a call fills a
// place that the caller has, or touches nothing; so the chain is not answered in an `Option`.
#[derive(Clone, Copy, Debug, PartialEq, Eq)]
pub enum Read {
    Chain,
    End,
}

// A refusal, with the record where it came: the header is record 0.
#[derive(Clone, Copy, Debug, PartialEq, Eq)]
pub struct RecordRefusal {
    pub at: u16,
    pub why: FileRefusal,
}

impl fmt::Display for RecordRefusal {
    ghost use Rattle.std.specs.Prelude.{Some};
    ghost use Rattle.chain_file.specs.Refusals.{described, refusal_text};

    ghost output = { λ refusal. Some (refusal_text (described refusal.why) refusal.at) };

    fn fmt<W: fmt::Write>(&self, f: &mut fmt::Formatter<W>) -> fmt::Result {
        let number = self.why.number();
        let at = self.at;
        write!(f, "file refused {number} record {at}")
    }
}

// Why no record was read. Memory is wanted only where nothing is wrong with the record. An enum of
// its own beside `chain`'s: one for both, generic in what is refused, could not have `From` of that
// beside `From<AllocError>`, since the two overlap.
#[derive(Clone, Copy, Debug, PartialEq, Eq)]
pub enum ReadError {
    Refused(RecordRefusal),
    NoMemory,
}

// Both by hand: the derive of `thiserror` says nothing of the error that it makes.
impl From<RecordRefusal> for ReadError {
    ghost use Rattle.std.specs.Prelude.{◌≡◌};
    ghost use Rattle.chain_file.specs.declared.readers.ReadError.TheVariants.{Refused};

    ghost from_gives = { λ refusal e. e ≡ Refused refusal };

    fn from(refusal: RecordRefusal) -> ReadError {
        ReadError::Refused(refusal)
    }
}

impl From<AllocError> for ReadError {
    ghost use Rattle.std.specs.Prelude.{◌≡◌};
    ghost use Rattle.chain_file.specs.declared.readers.ReadError.TheVariants.{NoMemory};

    ghost from_gives = { λ _ e. e ≡ NoMemory };

    fn from(_e: AllocError) -> ReadError {
        ReadError::NoMemory
    }
}
