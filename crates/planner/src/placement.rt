// The first allowed placement of a chain.
ghost use Rattle.std.specs.Prelude.{◌≡◌, IfOk, Some};
ghost use Rattle.chain.specs.Refusals.{refusal_of};
ghost use Rattle.planner.specs.Printout.{refused_text};
ghost use Rattle.planner.specs.Placement.{described as pin_described, first_board, first_boards, pin_refusal, placement_refusal};

use chain::refusals::Refusal;
use chain::stages::{Pin, Stage};
use std::alloc::{AllocError, Global};
use std::fmt;

// Why a chain has no allowed placement.
#[derive(Clone, Copy, Debug)]
pub enum PinRefusal {
    PinAbove { pin: u8 },
}

impl Refusal for PinRefusal {
    ghost described = { pin_described };

    fn number(&self) -> u8 {
        match self {
            PinRefusal::PinAbove { .. } => 9,
        }
    }
}

impl fmt::Display for PinRefusal {
    ghost output = { λ why. Some (refused_text (pin_described why)) };

    fn fmt<W: fmt::Write>(&self, f: &mut fmt::Formatter<W>) -> fmt::Result {
        let number = self.number();
        write!(f, "refused {number}")
    }
}

// Refuses a stage whose pin is above the boards 1 to `boards`.
fn check_pin(boards: u8, stage: Stage) -> Result<(), PinRefusal>
    ensures { refusal_of pin_described result ≡ pin_refusal boards stage }
{
    match stage.pin {
        Pin::Board(pin) if pin > boards => Err(PinRefusal::PinAbove { pin }),
        _ => Ok(()),
    }
}

// Refuses a chain by the first of its stages whose pin is above the boards. A `for` with `?`: by
// `try_for_each` its proof did not close.
pub(super) fn check_pins(boards: u8, stages: &[Stage]) -> Result<(), PinRefusal>
    ensures { refusal_of pin_described result ≡ placement_refusal boards stages.now }
{
    for stage in stages {
        check_pin(boards, *stage)?;
    }
    Ok(())
}

// The board of a stage in the first placement.
fn first_board(pin: Pin) -> u8
    ensures { result ≡ first_board pin }
{
    match pin {
        Pin::Free => 1,
        Pin::Board(board) => board,
    }
}

// The first placement, stage by stage.
pub(super) fn first_boards(heap: Global, stages: &[Stage]) -> Result<Vec<u8>, AllocError>
    ensures { IfOk result (λ v. v.items ≡ first_boards stages.now) }
{
    stages
        .iter()
        .map(|stage| first_board(stage.pin))
        .collect(heap)
}
