// The two states of a draft, and what moves between them.
ghost use Rattle.std.specs.Prelude.{◌≡◌, ◌<◌, ◌≤◌, max, true, vec_len, vec_capacity};
ghost use Rattle.chain.specs.Limits.{all_kept, length_kept, stage_kept};

use super::chains::Chain;
use super::headings::Heading;
use super::refusals::DraftRefusal;
use super::stages::Stage;
use std::alloc::AllocError;

// A draft that waits for a stage: as many messages as stages. Both rows have their room.
#[derive(Drop)]
pub struct AwaitingStage<const S: usize, const B: u8> {
    pub heading: Heading,
    pub stages: Vec<Stage>,
    pub messages: Vec<u32>,
    ghost stages_kept: { all_kept (stage_kept B) stages.items ≡ true },
    ghost messages_kept: { all_kept length_kept messages.items ≡ true },
    ghost waits: { vec_len messages ≡ vec_len stages },
    ghost few: { vec_len stages < max S 1 },
    ghost stages_room: { max S 1 ≤ vec_capacity stages },
    ghost messages_room: { max S 1 ≤ vec_capacity messages },
}

// A draft that has just taken a stage: a whole chain, whose rows have their room still. It takes a
// message or is finished.
#[derive(Drop)]
pub struct AwaitingMessage<const S: usize, const B: u8> {
    pub chain: Chain<S, B>,
    ghost stages_room: { max S 1 ≤ vec_capacity chain.stages },
    ghost messages_room: { max S 1 ≤ vec_capacity chain.messages },
}

// A refused drafting call gives the draft back as it was.
#[derive(Drop)]
pub struct GivenBack<D> {
    pub draft: D,
    pub why: DraftRefusal,
}

// Why a draft was not started. Memory is taken then and never later.
#[derive(Clone, Copy, Debug, PartialEq, Eq)]
pub enum StartError {
    Refused(DraftRefusal),
    NoMemory,
}

// Both by hand: the derive of `thiserror` says nothing of the error that it makes.
impl From<DraftRefusal> for StartError {
    ghost use Rattle.chain.specs.declared.drafts.StartError.TheVariants.{Refused};

    ghost from_gives = { λ why e. e ≡ Refused why };

    fn from(why: DraftRefusal) -> StartError {
        StartError::Refused(why)
    }
}

impl From<AllocError> for StartError {
    ghost use Rattle.chain.specs.declared.drafts.StartError.TheVariants.{NoMemory};

    ghost from_gives = { λ _ e. e ≡ NoMemory };

    fn from(_e: AllocError) -> StartError {
        StartError::NoMemory
    }
}
