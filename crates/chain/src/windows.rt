// The windows of a chain's parts once each stage has a board.
ghost use Rattle.std.specs.Prelude.{◌≡◌, ◌+◌, ◌-◌, ◌^◌, ◌<◌, ◌≤◌, [], ◌++◌, IfOk, vec_len, vec_capacity, nat_lt, slice_index};
ghost use Rattle.std.specs.Option.{option_to_list};
ghost use Rattle.chain.specs.Drafting.{contents};
ghost use Rattle.chain.specs.Parts.{message_part, parts, sent, total};
ghost use Rattle.chain.specs.Steps.{Paced, parts_of};
ghost use Rattle.chain.specs.Windows.{Fill, Places, end, windowed, windows};

use super::chains::Chain;
use super::paces::Pace;
use super::parts::{Part, PartRow, Place, TooLong, Windowed};
use super::placed::Placed;
use std::alloc::{AllocError, Global};

impl<const S: usize, const B: u8> Placed<'_, S, B> {
    // The board of stage `k`, counting from 0; past the row's end 0.
    fn board_of(self, k: usize) -> u8
        ensures { result ≡ slice_index self.entry.boards.now k }
    {
        self.boards.get(k).copied().unwrap_or(0)
    }

    // Whether the message after stage `k` crosses the bus.
    fn is_sent(self, k: usize) -> bool
        requires { k + 1 < 2 ^ 64 }
        ensures { result ≡ sent self.entry.boards.now k }
    {
        self.board_of(k) != self.board_of(k + 1)
    }

    // The message after stage `k` as a part, where there is one and it is sent.
    fn message_after(self, k: usize) -> Option<Part>
        ensures { option_to_list result ≡ message_part self.entry.chain.now.messages.items self.entry.boards.now k }
    {
        let length = *self.chain.messages.get(k)?;
        self.is_sent(k).then_some(Part {
            place: Place::Bus,
            stage: k + 1,
            length,
        })
    }

    // The length of the message after stage `k`, where it is sent; else 0.
    fn sent_after(self, k: usize) -> u32
        ensures { result ≡ total (message_part self.entry.chain.now.messages.items self.entry.boards.now k) }
    {
        if k < self.chain.messages.len() && self.is_sent(k) {
            self.chain.messages[k]
        } else {
            0
        }
    }

    // The pace of the chain's work, where the parts together are within the deadline. Stage by stage,
    // as the row is filled: an iterator over the parts is slower, most where they are too long.
    fn pace(self) -> Option<Pace>
        ensures { Paced self.entry.chain.now.heading.deadline (total (parts_of self.entry)) result }
    {
        let deadline = self.chain.heading.deadline;
        let mut upto = 0u64;
        for (k, stage) in self.chain.stages.iter().enumerate() {
            upto += u64::from(stage.length) + u64::from(self.sent_after(k));
            if is_past(deadline, upto) {
                return None;
            }
        }
        Some(Pace {
            deadline,
            work: upto as u32,
        })
    }
}

// Whether the work so far is more than the deadline leaves time for.
fn is_past(deadline: u32, upto: u64) -> bool
    ensures { result ≡ nat_lt deadline upto }
{
    upto > u64::from(deadline)
}

impl Pace {
    // The end of a part when `upto` of the ticks of work are done.
    fn end_of(self, upto: u32) -> u32
        requires { upto ≤ self.work }
        ensures { result ≡ end self.deadline self.work upto }
    {
        (u64::from(self.deadline) * u64::from(upto) / u64::from(self.work)) as u32
    }

    // The window of a part: from its end back to the end before, where `before` ticks of work were
    // done.
    fn window_of(self, before: u32, after: u32) -> u32
        requires rises { before ≤ after }
        requires within { after ≤ self.work }
        ensures { result ≡ end self.deadline self.work after - end self.deadline self.work before }
    {
        self.end_of(after) - self.end_of(before)
    }
}

// Adds a part, where there is one, with its window, `before` ticks of work being done before it.
// Answers the work done after it.
fn put(row: &mut Vec<Windowed>, pace: Pace, before: u32, part: Option<Part>) -> u32
    requires within { before + total (option_to_list part) ≤ pace.work }
    requires room { vec_len row.old < vec_capacity row.old }
    ensures after { result ≡ before + total (option_to_list part) }
    ensures items { row.new.items ≡ row.old.items ++ windowed pace.deadline pace.work before (option_to_list part) }
    ensures len { vec_len row.new ≤ vec_len row.old + 1 }
    ensures capacity { vec_capacity row.new ≡ vec_capacity row.old }
{
    let Some(part) = part else {
        return before;
    };
    let after = before + part.length;
    let window = pace.window_of(before, after);
    row.push_reserved(Windowed { part, window });
    after
}

// Adds the windows of a chain's parts to an empty row, at the pace of the parts together.
fn fill<const S: usize, const B: u8>(row: &mut Vec<Windowed>, placed: Placed<'_, S, B>, pace: Pace)
    requires work { pace.work ≡ total (parts_of placed) }
    requires deadline { pace.deadline ≡ placed.chain.now.heading.deadline }
    requires empty { (row.old.items ≡ []) × (vec_len row.old ≡ 0) }
    requires room { vec_len placed.chain.now.stages + vec_len placed.chain.now.stages ≤ vec_capacity row.old }
    ensures items { row.new.items ≡ windows (contents placed.entry.chain.now) placed.entry.boards.now }
    ensures filled { Fill placed.entry.chain.now.heading.deadline row.new.items }
    ensures capacity { vec_capacity row.new ≡ vec_capacity row.old }
{
    let mut before = 0u32;
    for k in 0..placed.chain.stages.len() {
        let stage = Part {
            place: Place::Board(placed.board_of(k)),
            stage: k + 1,
            length: placed.chain.stages[k].length,
        };
        let message = placed.message_after(k);
        before = put(row, pace, before, Some(stage));
        before = put(row, pace, before, message);
    }
}

impl<const S: usize> PartRow<S> {
    // An empty row, with room for the parts of any chain of at most `S` stages.
    pub fn new(heap: Global) -> Result<PartRow<S>, AllocError>
        ensures { IfOk result (λ row. row.parts.items ≡ []) }
    {
        Ok(PartRow {
            parts: Vec::with_capacity(heap, S.max(1).saturating_mul(2))?,
        })
    }

    // Makes this the row of a chain's parts on their boards, each with its window.
    pub fn place<const B: u8>(&mut self, chain: &Chain<S, B>, boards: &[u8]) -> Result<(), TooLong>
        ensures { Places (contents chain.now) boards.now self.old self.new result }
    {
        let placed = Placed { chain, boards };
        let pace = placed.pace().ok_or(TooLong)?;
        self.parts.clear();
        fill(&mut self.parts, placed, pace);
        Ok(())
    }
}
