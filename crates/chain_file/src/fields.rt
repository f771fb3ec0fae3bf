// The fields of a record's body: read off their places, and checked in their order.
ghost use Rattle.std.specs.Prelude.{◌≡◌, ◌+◌, ◌/◌, ◌%◌, ◌<◌, ◌≤◌, length, IfOk, None, MatchOption};
ghost use Rattle.chain.specs.Drafting.{contents};
ghost use Rattle.chain.specs.Limits.{most_stages};
ghost use Rattle.chain.specs.Refusals.{described, refusal_of};
ghost use Rattle.chain_file.specs.Fields.{head, message_length, pin, rest, stage_length};
ghost use Rattle.chain_file.specs.Format.{rows_refusal, stage_row_refusal};
ghost use Rattle.chain_file.specs.Steps.{said_by, stages_in};

use chain::chains::Chain;
use chain::drafting::{check_length, check_stage};
use chain::drafts::AwaitingStage;
use chain::headings::Heading;
use chain::refusals::DraftRefusal;
use chain::{BOARDS, STAGES};
use std::alloc::{AllocError, Global};

pub type FileChain = Chain<STAGES, BOARDS>;

// The first eleven bytes of a body, as they stand: what is checked of them is a heading.
#[derive(Clone, Copy)]
pub(super) struct Head {
    pub name: u16,
    pub period: u32,
    pub deadline: u32,
    pub stages: u8,
}

// The head of a body, and the rest, which holds the stages.
pub(super) fn split_body(body: &[u8]) -> Option<(Head, &[u8])>
    ensures { MatchOption result (length body.now < 11) (λ p. (p.0 ≡ head body.now) × (p.1.now ≡ rest body.now)) }
{
    let [n0, n1, p0, p1, p2, p3, d0, d1, d2, d3, stages, rest @ ..] = body else {
        return None;
    };
    let head = Head {
        name: u16::from_be_bytes([*n0, *n1]),
        period: u32::from_be_bytes([*p0, *p1, *p2, *p3]),
        deadline: u32::from_be_bytes([*d0, *d1, *d2, *d3]),
        stages: *stages,
    };
    Some((head, rest))
}

// The pin and the length of the stage that stands first in a row.
fn stage_in(row: &[u8]) -> (u8, u32)
    requires { 5 ≤ length row.now }
    ensures pin { result.0 ≡ pin row.now 0 }
    ensures length { result.1 ≡ stage_length row.now 0 }
{
    let [pin, l0, l1, l2, l3] = *row.first_chunk::<5>().unwrap();
    (pin, u32::from_be_bytes([l0, l1, l2, l3]))
}

// The length of the message after it.
fn message_in(row: &[u8; 9]) -> u32
    ensures { result ≡ message_length row.now 0 }
{
    let [.., m0, m1, m2, m3] = row;
    u32::from_be_bytes([*m0, *m1, *m2, *m3])
}

// Refuses a row's stage, and the message after it, that are outside the limits: the first of two.
fn check_row(row: &[u8; 9]) -> Result<(), DraftRefusal>
    ensures { refusal_of described result ≡ stage_row_refusal 2 row.now 0 }
{
    let (pin, length) = stage_in(row);
    check_stage(BOARDS, pin, length)?;
    check_length(message_in(row))
}

// Refuses the last row's stage where it is outside the limits: an only one.
fn check_last(row: &[u8]) -> Result<(), DraftRefusal>
    requires { 5 ≤ length row.now }
    ensures { refusal_of described result ≡ stage_row_refusal 1 row.now 0 }
{
    let (pin, length) = stage_in(row);
    check_stage(BOARDS, pin, length)
}

// Refuses stages and messages that are outside the limits. Each stage but the last has a row of
// nine bytes.
pub(super) fn check_rows(rest: &[u8]) -> Result<(), DraftRefusal>
    requires { length rest.now % 9 ≡ 5 }
    ensures { refusal_of described result ≡ rows_refusal (stages_in rest.now) rest.now }
{
    let (rows, last) = rest.as_chunks::<9>();
    for row in rows {
        check_row(row)?;
    }
    check_last(last)
}

// The chain with a heading and with stages and messages that are checked. Only memory can be
// wanting.
pub(super) fn build(heap: Global, heading: Heading, rest: &[u8]) -> Result<FileChain, AllocError>
    requires checked { rows_refusal (stages_in rest.now) rest.now ≡ None }
    requires size { length rest.now % 9 ≡ 5 }
    requires few { stages_in rest.now ≤ most_stages }
    ensures { IfOk result (λ c. contents c ≡ said_by heading rest.now) }
{
    let (rows, last) = rest.as_chunks::<9>();
    let mut draft = AwaitingStage::with_heading(heap, heading)?;
    for row in rows {
        let (pin, length) = stage_in(row);
        let staged = draft.stage(pin, length).unwrap();
        draft = staged.message(message_in(row)).unwrap();
    }
    let (pin, length) = stage_in(last);
    let staged = draft.stage(pin, length).unwrap();
    Ok(staged.finish())
}
