// Why a chain file is refused.
ghost use Rattle.std.specs.Prelude.{◌≡◌};
ghost use Rattle.chain_file.specs.declared.refusals.FileRefusal.TheVariants.{Field};
ghost use Rattle.chain_file.specs.Refusals.{described as file_described};

use chain::refusals::{DraftRefusal, Refusal};

#[derive(Clone, Copy, Debug, PartialEq, Eq)]
pub enum FileRefusal {
    Boards { boards: u8 },
    Version { version: u8 },
    TooShort,
    RecordSize { length: u16 },
    TooManyChains,
    Field(DraftRefusal),
}

impl Refusal for FileRefusal {
    ghost described = { file_described };

    fn number(&self) -> u8 {
        match self {
            FileRefusal::Boards { .. } => 5,
            FileRefusal::Version { .. } => 13,
            FileRefusal::TooShort => 14,
            FileRefusal::RecordSize { .. } => 15,
            FileRefusal::TooManyChains => 16,
            FileRefusal::Field(why) => why.number(),
        }
    }
}

// By hand: the derive of `thiserror` says nothing of the error that it makes.
impl From<DraftRefusal> for FileRefusal {
    ghost from_gives = { λ why e. e ≡ Field why };

    fn from(why: DraftRefusal) -> FileRefusal {
        Self::Field(why)
    }
}
