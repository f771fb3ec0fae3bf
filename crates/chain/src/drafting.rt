// The drafting calls. Each checks its numbers in a fixed order and refuses by the first that is
// wrong. Memory is taken once, when a draft is started.
ghost use Rattle.std.specs.Prelude.{◌≡◌, vec_len, IfOk, IsOkAnd};
ghost use Rattle.chain.specs.Drafting.{Answers, Headed, Starts, contents, length_refusal, message_refusal, stage_refusal, staged, start_refusal, started, waiting, with_message, with_stage};
ghost use Rattle.chain.specs.Refusals.{described, refusal_of};

use super::MOST_TICKS;
use super::chains::Chain;
use super::drafts::{AwaitingMessage, AwaitingStage, GivenBack, StartError};
use super::headings::Heading;
use super::refusals::DraftRefusal;
use super::stages::{Pin, Stage};
use std::alloc::{AllocError, Global};

// Refuses a length of a stage or a message that is outside the limits.
pub fn check_length(length: u32) -> Result<(), DraftRefusal>
    ensures { refusal_of described result ≡ length_refusal length }
{
    if 1 <= length && length <= MOST_TICKS {
        Ok(())
    } else {
        Err(DraftRefusal::Length { length })
    }
}

// Refuses a stage of chains with pins to boards 1 to `boards` that is outside the limits.
pub fn check_stage(boards: u8, pin: u8, length: u32) -> Result<(), DraftRefusal>
    ensures { refusal_of described result ≡ stage_refusal boards pin length }
{
    if pin <= boards {
        check_length(length)
    } else {
        Err(DraftRefusal::PinAbove { pin })
    }
}

// Refuses a message on a draft of `stages` stages out of `most` that is full, or a length outside
// the limits.
pub fn check_message(most: usize, stages: usize, length: u32) -> Result<(), DraftRefusal>
    ensures { refusal_of described result ≡ message_refusal most stages length }
{
    if stages >= most {
        Err(DraftRefusal::StagesFull)
    } else {
        check_length(length)
    }
}

impl Heading {
    // The heading with this name, period and deadline, where they are inside the limits.
    pub fn new(name: u16, period: u32, deadline: u32) -> Result<Heading, DraftRefusal>
        ensures { Headed name period deadline result }
    {
        if name == 0 {
            return Err(DraftRefusal::NoName);
        }
        if 1 <= period && period <= MOST_TICKS && 1 <= deadline && deadline <= period {
            Ok(Heading {
                name,
                period,
                deadline,
            })
        } else {
            Err(DraftRefusal::Times { period, deadline })
        }
    }
}

impl<const S: usize, const B: u8> AwaitingStage<S, B> {
    // Starts a draft, with room for the most stages.
    pub fn start(
        heap: Global,
        name: u16,
        period: u32,
        deadline: u32,
    ) -> Result<AwaitingStage<S, B>, StartError>
        ensures { Starts (start_refusal name period deadline) (λ d. waiting d ≡ started name period deadline) result }
    {
        let heading = Heading::new(name, period, deadline)?;
        Ok(AwaitingStage::with_heading(heap, heading)?)
    }

    // Starts a draft from numbers that are checked, so that only memory can be wanting.
    pub fn with_heading(heap: Global, heading: Heading) -> Result<AwaitingStage<S, B>, AllocError>
        ensures { IfOk result (λ d. waiting d ≡ started heading.name heading.period heading.deadline) }
    {
        Ok(AwaitingStage {
            heading,
            stages: Vec::with_capacity(heap, S.max(1))?,
            messages: Vec::with_capacity(heap, S.max(1))?,
        })
    }

    // Takes a stage: a pin of 0 leaves it free, any other names its only board. A number and no `Pin`,
    // since it comes from outside and one above the boards is refused.
    #[tactic(auto, using(crate::proofs::Kept::one_more_kept, crate::proofs::Kept::unrefused_stage_kept))]
    pub fn stage(
        self,
        pin: u8,
        length: u32,
    ) -> Result<AwaitingMessage<S, B>, GivenBack<AwaitingStage<S, B>>>
        ensures { Answers (stage_refusal B pin length) self.entry (λ d. staged d ≡ with_stage (waiting self.entry) pin length) result }
    {
        // No `map_err`, which would move the draft.
        if let Err(why) = check_stage(B, pin, length) {
            return Err(GivenBack { draft: self, why });
        }
        let AwaitingStage {
            heading,
            mut stages,
            messages,
        } = self;
        stages.push_reserved(Stage {
            pin: Pin::from(pin),
            length,
        });
        Ok(AwaitingMessage {
            chain: Chain {
                heading,
                stages,
                messages,
            },
        })
    }
}

impl<const S: usize, const B: u8> AwaitingMessage<S, B> {
    // Takes the message after the stage that was just taken.
    #[tactic(auto, using(crate::proofs::Kept::one_more_kept, crate::proofs::Kept::unrefused_message_kept))]
    pub fn message(
        self,
        length: u32,
    ) -> Result<AwaitingStage<S, B>, GivenBack<AwaitingMessage<S, B>>>
        ensures { Answers (message_refusal S (vec_len self.entry.chain.stages) length) self.entry (λ d. waiting d ≡ with_message (staged self.entry) length) result }
    {
        // No `map_err`, which would move the draft.
        if let Err(why) = check_message(S, self.chain.stages.len(), length) {
            return Err(GivenBack { draft: self, why });
        }
        let Chain {
            heading,
            stages,
            mut messages,
        } = self.chain;
        messages.push_reserved(length);
        Ok(AwaitingStage {
            heading,
            stages,
            messages,
        })
    }

    // The chain as it was drafted.
    pub fn finish(self) -> Chain<S, B>
        ensures { contents result ≡ staged self.entry }
    {
        self.chain
    }
}
