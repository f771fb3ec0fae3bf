// The bus test: a message once begun is not interrupted.
ghost use Rattle.timing_tests.specs.Tests.{BusEnds, bus_time};
ghost use Rattle.timing_tests.specs.Lemmas.TestLaws.{bus_steps_down, bus_leaves};
ghost use Rattle.timing_tests.specs.Lemmas.Times.{bus_time-least, bus_time-within};

use super::demand::{blocking_of, settled};
use timing::items::Item;
use timing::row_test::RowTest;
use timing::rows::Row;

#[derive(Clone, Copy, Debug, PartialEq, Eq)]
pub struct BusTest;

impl RowTest for BusTest {
    ghost Ends = { λ s. BusEnds };

    ghost time = { λ s. bus_time };

    ghost least = { λ s. bus_time-least };

    ghost within = { λ s. bus_time-within };

    ghost down = { bus_steps_down };

    ghost leaving = { bus_leaves };

    // The item waits for a message below it that has begun, and for those above it; then it takes
    // its length.
    #[tactic(auto, using(crate::specs::Lemmas::Times::bus_time_some, crate::specs::Lemmas::Times::bus_time_none))]
    fn time_of(&self, item: Item, above: Row<'_>, below: Row<'_>) -> Option<u32> {
        let blocking = blocking_of(item, below);
        let wait = settled::<true>(above, item, blocking, item.window - item.length)?;
        Some(wait + item.length)
    }
}
