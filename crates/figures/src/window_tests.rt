// Windows: the worked figures, run.
use chain::chains::Chain;
use chain::drafts::AwaitingStage;
use chain::parts::{PartRow, Place, TooLong};
use chain::{BOARDS, STAGES};
use std::alloc::Global;
use std::test::Fail;

// Stages of 10, 1 and 9 with messages of 1 and 2 between them.
fn three_stages(heap: Global, deadline: u32) -> Result<Chain<STAGES, BOARDS>, Fail> {
    let draft = AwaitingStage::start(heap, 1, 100, deadline)?;
    let draft = draft.stage(1, 10).map_err(|_| Fail::new("stage 1"))?;
    let draft = draft.message(1).map_err(|_| Fail::new("message 1"))?;
    let draft = draft.stage(1, 1).map_err(|_| Fail::new("stage 2"))?;
    let draft = draft.message(2).map_err(|_| Fail::new("message 2"))?;
    let draft = draft.stage(2, 9).map_err(|_| Fail::new("stage 3"))?;
    Ok(draft.finish())
}

fn window(row: &PartRow<STAGES>, i: usize) -> u32 {
    row.parts.get(i).map_or(0, |part| part.window)
}

#[test]
fn a_sent_message_has_its_window(rt: HostRuntime) -> Result<(), Fail> {
    let chain = three_stages(rt.alloc(), 58)?;
    let mut row = PartRow::new(rt.alloc())?;
    assert!(rt; row.place(&chain, &[1, 1, 2]).is_ok());
    assert_eq!(rt; row.parts.len(), 4);
    assert_eq!(rt; window(&row, 0), 26);
    assert_eq!(rt; window(&row, 1), 3);
    assert_eq!(rt; window(&row, 2), 5);
    assert_eq!(rt; window(&row, 3), 24);
    let message = row.parts.get(2).ok_or_else(|| Fail::new("no third part"))?;
    assert_eq!(rt; message.part.place, Place::Bus);
    assert_eq!(rt; message.part.stage, 2);
    Ok(())
}

// Omitting the message lengthens the first and the last window, but not the second.
#[test]
fn an_omitted_message_leaves_its_time_to_others(rt: HostRuntime) -> Result<(), Fail> {
    let chain = three_stages(rt.alloc(), 58)?;
    let mut row = PartRow::new(rt.alloc())?;
    assert!(rt; row.place(&chain, &[1, 1, 1]).is_ok());
    assert_eq!(rt; row.parts.len(), 3);
    assert_eq!(rt; window(&row, 0), 29);
    assert_eq!(rt; window(&row, 1), 2);
    assert_eq!(rt; window(&row, 2), 27);
    Ok(())
}

// The parts sum to 22 with one message sent and to 20 with none. A refusal leaves the row.
#[test]
fn parts_past_the_deadline_are_too_long(rt: HostRuntime) -> Result<(), Fail> {
    let chain = three_stages(rt.alloc(), 21)?;
    let mut row = PartRow::new(rt.alloc())?;
    assert!(rt; row.place(&chain, &[3, 3, 3]).is_ok());
    assert_eq!(rt; row.place(&chain, &[1, 1, 2]), Err(TooLong));
    assert_eq!(rt; row.parts.len(), 3);
    Ok(())
}
