// Refusals: what each has, and why a drafting call says no.
ghost use Rattle.std.specs.Prelude.{◌≡◌};
ghost use Rattle.chain.specs.Refusals.{Described, described as draft_described};

// What refuses a call: it has a number in the table of refusals, and carries the values that are
// wrong.
pub trait Refusal {
    ghost described: { Self → Described };

    // The refusal's number in the table of refusals.
    fn number(&self) -> u8
        ensures { result ≡ (described self.now).number };
}

#[derive(Clone, Copy, Debug, PartialEq, Eq)]
pub enum DraftRefusal {
    Times { period: u32, deadline: u32 },
    Length { length: u32 },
    PinAbove { pin: u8 },
    StagesFull,
    NoName,
}

impl Refusal for DraftRefusal {
    ghost described = { draft_described };

    fn number(&self) -> u8 {
        match self {
            DraftRefusal::Times { .. } => 1,
            DraftRefusal::Length { .. } => 2,
            DraftRefusal::PinAbove { .. } => 3,
            DraftRefusal::StagesFull => 4,
            DraftRefusal::NoName => 6,
        }
    }
}
