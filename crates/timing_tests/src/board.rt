// The board test: a board runs the highest item that waits, and interrupts a lower one.
ghost use Rattle.timing_tests.specs.Tests.{BoardEnds, board_time};
ghost use Rattle.timing_tests.specs.Lemmas.TestLaws.{board_steps_down, board_leaves};
ghost use Rattle.timing_tests.specs.Lemmas.Times.{board_time-least, board_time-within};

use super::demand::settled;
use timing::items::Item;
use timing::row_test::RowTest;
use timing::rows::Row;

#[derive(Clone, Copy, Debug, PartialEq, Eq)]
pub struct BoardTest;

impl RowTest for BoardTest {
    ghost Ends = { λ s x above below. BoardEnds x above };

    ghost time = { λ s. board_time };

    ghost least = { λ s. board_time-least };

    ghost within = { λ s. board_time-within };

    ghost down = { board_steps_down };

    ghost leaving = { board_leaves };

    // The items below don't matter: the board is taken from them.
    #[tactic(auto, using(crate::specs::Lemmas::Times::board_time_is))]
    fn time_of(&self, item: Item, above: Row<'_>, _below: Row<'_>) -> Option<u32> {
        settled::<false>(above, item, item.length, item.window)
    }
}
