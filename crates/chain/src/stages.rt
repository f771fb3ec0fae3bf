// A stage of a chain, and where it may run.
ghost use Rattle.std.specs.Prelude.{◌≡◌};
ghost use Rattle.chain.specs.Drafting.{pin_of};

// Where a stage may run: on any board, or only on the board that is named. An enum of its own, since
// `None` in place of `Free` would read as no pin and not as every board.
#[derive(Clone, Copy, Debug, PartialEq, Eq)]
pub enum Pin {
    Free,
    Board(u8),
}

// The pin that a number names: 0 leaves the stage free.
impl From<u8> for Pin {
    ghost from_gives = { λ number pin. pin ≡ pin_of number };

    fn from(pin: u8) -> Pin {
        if pin == 0 { Pin::Free } else { Pin::Board(pin) }
    }
}

// A stage, with its length in ticks.
#[derive(Clone, Copy, Debug, PartialEq, Eq)]
pub struct Stage {
    pub pin: Pin,
    pub length: u32,
}
