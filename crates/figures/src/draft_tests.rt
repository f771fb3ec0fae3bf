// Drafting: each refusal at its smallest example, and what is left after it.
use chain::chains::Chain;
use chain::drafts::{AwaitingMessage, AwaitingStage, StartError};
use chain::headings::Heading;
use chain::refusals::{DraftRefusal, Refusal};
use chain::stages::Pin;
use chain::{BOARDS, STAGES};
use std::alloc::Global;
use std::test::Fail;

type Waiting = AwaitingStage<STAGES, BOARDS>;

type Staged = AwaitingMessage<STAGES, BOARDS>;

// The refusal of a draft that is started so.
fn refused(heap: Global, name: u16, period: u32, deadline: u32) -> Option<DraftRefusal> {
    match Waiting::start(heap, name, period, deadline) {
        Err(StartError::Refused(why)) => Some(why),
        _ => None,
    }
}

fn started(heap: Global) -> Result<Waiting, Fail> {
    Ok(Waiting::start(heap, 7, 20, 12)?)
}

fn stage(draft: Waiting, pin: u8, length: u32) -> Result<Staged, Fail> {
    draft
        .stage(pin, length)
        .map_err(|_| Fail::new("a stage was refused"))
}

fn message(draft: Staged, length: u32) -> Result<Waiting, Fail> {
    draft
        .message(length)
        .map_err(|_| Fail::new("a message was refused"))
}

#[test]
fn a_name_of_0_is_refused_before_bad_times(rt: HostRuntime) {
    assert_eq!(rt;
        refused(rt.alloc(), 0, 100, 101),
        Some(DraftRefusal::NoName)
    );
    assert_eq!(rt; DraftRefusal::NoName.number(), 6);
}

#[test]
fn times_outside_limits_are_refused(rt: HostRuntime) {
    let late = DraftRefusal::Times {
        period: 100,
        deadline: 101,
    };
    assert_eq!(rt; refused(rt.alloc(), 1, 100, 101), Some(late));
    assert_eq!(rt; late.number(), 1);
    let none = DraftRefusal::Times {
        period: 20,
        deadline: 0,
    };
    assert_eq!(rt; refused(rt.alloc(), 1, 20, 0), Some(none));
    let long = DraftRefusal::Times {
        period: 1_000_001,
        deadline: 1,
    };
    assert_eq!(rt; refused(rt.alloc(), 1, 1_000_001, 1), Some(long));
    assert_eq!(rt; refused(rt.alloc(), 65_535, 1_000_000, 1_000_000), None);
    assert_eq!(rt; refused(rt.alloc(), 1, 1, 1), None);
}

#[test]
fn a_pin_above_4_is_refused_before_the_length(rt: HostRuntime) -> Result<(), Fail> {
    let back = started(rt.alloc())?
        .stage(5, 0)
        .err()
        .ok_or_else(|| Fail::new("taken"))?;
    assert_eq!(rt; back.why, DraftRefusal::PinAbove { pin: 5 });
    assert_eq!(rt; back.why.number(), 3);
    let chain = stage(back.draft, 4, 3)?.finish();
    assert_eq!(rt; chain.heading.name, 7);
    assert_eq!(rt; chain.heading.period, 20);
    assert_eq!(rt; chain.heading.deadline, 12);
    assert!(rt; chain.stages.len() == 1);
    assert_eq!(rt; chain.stages[0].pin, Pin::Board(4));
    assert_eq!(rt; chain.stages[0].length, 3);
    assert!(rt; chain.messages.is_empty());
    Ok(())
}

#[test]
fn a_length_outside_limits_is_refused(rt: HostRuntime) -> Result<(), Fail> {
    let back = started(rt.alloc())?
        .stage(0, 0)
        .err()
        .ok_or_else(|| Fail::new("taken"))?;
    assert_eq!(rt; back.why, DraftRefusal::Length { length: 0 });
    assert_eq!(rt; back.why.number(), 2);
    let back = back
        .draft
        .stage(0, 1_000_001)
        .err()
        .ok_or_else(|| Fail::new("taken"))?;
    assert_eq!(rt; back.why, DraftRefusal::Length { length: 1_000_001 });
    let staged = stage(back.draft, 0, 1_000_000)?;
    let back = staged.message(0).err().ok_or_else(|| Fail::new("taken"))?;
    assert_eq!(rt; back.why, DraftRefusal::Length { length: 0 });
    let chain = stage(message(back.draft, 5)?, 2, 6)?.finish();
    assert!(rt; chain.stages.len() == 2);
    assert_eq!(rt; chain.stages[0].pin, Pin::Free);
    assert_eq!(rt; chain.stages[1].pin, Pin::Board(2));
    assert!(rt; chain.messages.len() == 1);
    assert_eq!(rt; chain.messages[0], 5);
    Ok(())
}

#[test]
fn a_message_on_six_stages_is_refused_before_its_length(rt: HostRuntime) -> Result<(), Fail> {
    let mut draft = stage(started(rt.alloc())?, 0, 1)?;
    for length in 2..7u32 {
        draft = stage(message(draft, length)?, 0, length)?;
    }
    let back = draft.message(0).err().ok_or_else(|| Fail::new("taken"))?;
    assert_eq!(rt; back.why, DraftRefusal::StagesFull);
    assert_eq!(rt; back.why.number(), 4);
    let chain: Chain<STAGES, BOARDS> = back.draft.finish();
    assert_eq!(rt; chain.stages.len(), 6);
    assert_eq!(rt; chain.messages.len(), 5);
    Ok(())
}

// A heading that is checked starts the draft that its numbers start.
#[test]
fn a_heading_starts_a_draft(rt: HostRuntime) -> Result<(), Fail> {
    let heading = Heading::new(7, 20, 12)?;
    let draft = Waiting::with_heading(rt.alloc(), heading)?;
    assert_eq!(rt; draft.heading, started(rt.alloc())?.heading);
    let chain = stage(draft, 0, 3)?.finish();
    assert_eq!(rt; chain.heading, heading);
    assert!(rt; chain.stages.len() == 1);
    Ok(())
}
