// Whole print-outs.
use super::placement::PinRefusal;
use super::printout::report;
use chain::refusals::Refusal;
use std::alloc::Global;
use std::process::Abort;
use std::test::Fail;

fn prints(rt: &impl Abort, heap: Global, bytes: &[u8], text: &str) -> Result<(), Fail> {
    let made = report(heap, bytes)?;
    assert!(rt; made.as_str() == text);
    Ok(())
}

#[test]
fn refused_files(rt: HostRuntime) -> Result<(), Fail> {
    let heap = rt.alloc();
    prints(&rt, heap, &[], "file refused 14 record 0\n")?;
    prints(&rt, heap, &[2], "file refused 13 record 0\n")?;
    prints(&rt, heap, &[1, 9], "file refused 5 record 0\n")?;
    prints(&rt, heap, &[1, 3], "boards 3\n")?;
    prints(
        &rt,
        heap,
        &[1, 3, 0, 17],
        "boards 3\nfile refused 15 record 1\n",
    )
}

// The file `examples/two-boards.chains`.
const TWO_BOARDS: &[u8] = b"\
    \x01\x02\
    \x00\x19\x00\x01\x00\x00\x00\x14\x00\x00\x00\x0c\x02\x01\x00\x00\x00\x02\x00\x00\x00\x01\x00\x00\x00\x00\x03\
    \x00\x19\x00\x02\x00\x00\x00\x0a\x00\x00\x00\x0a\x02\x02\x00\x00\x00\x04\x00\x00\x00\x01\x01\x00\x00\x00\x02\
    \x00\x10\x00\x03\x00\x00\x00\x0a\x00\x00\x00\x04\x01\x02\x00\x00\x00\x03";

#[test]
fn two_boards(rt: HostRuntime) -> Result<(), Fail> {
    prints(
        &rt,
        rt.alloc(),
        TWO_BOARDS,
        "boards 2\nchain 1 windows 4 8\nchain 2 windows 5 2 3\nchain 3 windows 4\n",
    )
}

// Chain 258 has a stage of 3, a message of 1 and a stage of 2 pinned to board 2, in 5 ticks.
const LONG: &[u8; 29] = b"\
    \x01\x02\
    \x00\x19\x01\x02\x00\x00\x00\x09\x00\x00\x00\x05\x02\x00\x00\x00\x00\x03\x00\x00\x00\x01\x02\x00\x00\x00\x02";

#[test]
fn a_chain_that_does_not_fit(rt: HostRuntime) -> Result<(), Fail> {
    let heap = rt.alloc();
    prints(&rt, heap, LONG, "boards 2\nchain 258 long\n")?;
    let mut six_ticks = *LONG;
    six_ticks[13] = 6;
    prints(&rt, heap, &six_ticks, "boards 2\nchain 258 windows 3 1 2\n")?;
    let mut one_board = *LONG;
    one_board[1] = 1;
    prints(&rt, heap, &one_board, "boards 1\nchain 258 refused 9\n")?;
    assert_eq!(rt; PinRefusal::PinAbove { pin: 2 }.number(), 9);
    Ok(())
}
