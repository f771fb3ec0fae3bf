// The parts of a placed chain: its stages, and the messages that cross the bus.
ghost use Rattle.std.specs.Prelude.{◌+◌, ◌≤◌, max, vec_capacity};

// Where a part runs. No `Option` of a board, since the bus is a place as well.
#[derive(Clone, Copy, Debug, PartialEq, Eq)]
pub enum Place {
    Board(u8),
    Bus,
}

// Stage `stage`, counting from 1, on its board; or the message after that stage, on the bus.
#[derive(Clone, Copy, Debug, PartialEq, Eq)]
pub struct Part {
    pub place: Place,
    pub stage: usize,
    pub length: u32,
}

// A part with its window, in ticks.
#[derive(Clone, Copy, Debug, PartialEq, Eq)]
pub struct Windowed {
    pub part: Part,
    pub window: u32,
}

// A row for the parts of one chain of at most `S` stages. Its memory is taken when it is made.
#[derive(Drop)]
pub struct PartRow<const S: usize> {
    pub parts: Vec<Windowed>,
    ghost room: { max S 1 + max S 1 ≤ vec_capacity parts },
}

// The parts are longer together than the deadline.
#[derive(Clone, Copy, Debug, PartialEq, Eq)]
pub struct TooLong;
