// Timing tests: the worked figures, the limits of items and each kind of improper question, run.
ghost use Rattle.timing.specs.Questions.{of_question};
ghost use Rattle.timing_tests.specs.Tests.{BoardResponse, BusResponse};

use chain::refusals::Refusal;
use std::test::Fail;
use timing::items::Item;
use timing::places::{PlaceSet, is_proper};
use timing::questions::Question;
use timing::refusals::ItemRefusal;
use timing::row_test::RowTest;
use timing::timed_test::TimedTest;
use timing::timing_test::TimingTest;
use timing_tests::board::BoardTest;
use timing_tests::bus::BusTest;
use timing_tests::margin::Margin;

fn item(length: u32, period: u32, window: u32) -> Result<Item, Fail> {
    Ok(Item::new(length, period, window)?)
}

fn refused(length: u32, period: u32, window: u32) -> Option<(u8, u32, u32, u32)> {
    let why = Item::new(length, period, window).err()?;
    let ItemRefusal::OutsideLimits {
        length,
        period,
        window,
    } = why;
    Some((why.number(), length, period, window))
}

// What `least_end` promises of each test: two functions, since each names the promise of its own.
fn least_on_a_board(question: Question<'_>) -> Option<u32>
    ensures { of_question BoardResponse question.entry result }
{
    BoardTest.least_end(question)
}

fn least_on_the_bus(question: Question<'_>) -> Option<u32>
    ensures { of_question BusResponse question.entry result }
{
    BusTest.least_end(question)
}

// A question about the first item of a table.
fn first_with(table: &[Item], above: PlaceSet, below: PlaceSet) -> Question<'_> {
    Question {
        table,
        place: 0,
        above,
        below,
    }
}

// A question about the second of two items with the first above it.
fn second_of(table: &[Item]) -> Question<'_> {
    Question {
        table,
        place: 1,
        above: PlaceSet::none().with(0),
        below: PlaceSet::none(),
    }
}

// What a test says in both ways, which need not agree: whether the item passes, and when.
fn told<T: TimedTest>(test: &T, question: Question<'_>) -> (bool, Option<u32>) {
    (test.passes(question), test.response(question))
}

fn with_first_above<T: TimedTest>(test: &T, first: Item, second: Item) -> (bool, Option<u32>) {
    let table = [first, second];
    told(test, second_of(&table))
}

fn with_second_below<T: TimedTest>(test: &T, first: Item, second: Item) -> (bool, Option<u32>) {
    let table = [first, second];
    told(
        test,
        first_with(&table, PlaceSet::none(), PlaceSet::none().with(1)),
    )
}

#[test]
fn items_outside_their_limits_are_refused(rt: HostRuntime) {
    assert_eq!(rt; refused(5, 10, 4), Some((20, 5, 10, 4)));
    assert_eq!(rt; refused(0, 10, 4), Some((20, 0, 10, 4)));
    assert_eq!(rt; refused(1, 10, 11), Some((20, 1, 10, 11)));
    assert_eq!(rt; refused(1, 1_000_001, 4), Some((20, 1, 1_000_001, 4)));
    assert_eq!(rt; refused(1_000_000, 1_000_000, 1_000_000), None);
    assert_eq!(rt; refused(1, 1, 1), None);
}

// 3 + ⌈5 ÷ 5⌉ × 2 = 5, and 3 + ⌈4 ÷ 5⌉ × 2 is more than 4.
#[test]
fn on_a_board(rt: HostRuntime) -> Result<(), Fail> {
    let above = item(2, 5, 5)?;
    let in_time = with_first_above(&BoardTest, above, item(3, 20, 5)?);
    assert_eq!(rt; in_time, (true, Some(5)));
    let late = with_first_above(&BoardTest, above, item(3, 20, 4)?);
    assert_eq!(rt; late, (false, None));
    let table = [above, item(3, 20, 5)?];
    assert_eq!(rt; least_on_a_board(second_of(&table)), Some(5));
    Ok(())
}

// With (1,3,3) above, w = 4 covers 2 + (⌊4 ÷ 3⌋ + 1) × 1 and 3 does not. With (4,20,8) below, w has
// to cover 4. Alone, an item is blocked by its own length.
#[test]
fn on_the_bus(rt: HostRuntime) -> Result<(), Fail> {
    let above = item(1, 3, 3)?;
    let in_time = with_first_above(&BusTest, above, item(2, 20, 6)?);
    assert_eq!(rt; in_time, (true, Some(6)));
    let late = with_first_above(&BusTest, above, item(2, 20, 5)?);
    assert_eq!(rt; late, (false, None));
    let below = item(4, 20, 8)?;
    let blocked = with_second_below(&BusTest, item(1, 10, 5)?, below);
    assert_eq!(rt; blocked, (true, Some(5)));
    let too_long = with_second_below(&BusTest, item(1, 10, 4)?, below);
    assert_eq!(rt; too_long, (false, None));
    let table = [item(3, 20, 6)?];
    let alone = first_with(&table, PlaceSet::none(), PlaceSet::none());
    assert_eq!(rt; BusTest.response(alone), Some(6));
    assert_eq!(rt; least_on_the_bus(alone), Some(6));
    Ok(())
}

// The window of 7 leaves 5 with a margin of 2, and 4 with 3.
#[test]
fn with_a_margin(rt: HostRuntime) -> Result<(), Fail> {
    let above = item(2, 5, 5)?;
    let asked = item(3, 20, 7)?;
    let two = Margin {
        test: BoardTest,
        ticks: 2,
    };
    assert_eq!(rt; with_first_above(&two, above, asked), (true, Some(5)));
    let three = Margin {
        test: BoardTest,
        ticks: 3,
    };
    assert_eq!(rt; with_first_above(&three, above, asked), (false, None));
    let most = Margin {
        test: BoardTest,
        ticks: 4_294_967_295,
    };
    assert_eq!(rt; with_first_above(&most, above, asked), (false, None));
    Ok(())
}

#[test]
fn improper_questions(rt: HostRuntime) -> Result<(), Fail> {
    let none = PlaceSet::none();
    let first = none.with(0);
    assert!(rt; is_proper(32, 31, first, none));
    assert!(rt; !is_proper(33, 31, first, none));
    assert!(rt; !is_proper(2, 2, first, none));
    assert!(rt; !is_proper(2, 1, none.with(2), none));
    assert!(rt; !is_proper(2, 1, none, none.with(2)));
    assert!(rt; !is_proper(2, 1, first, first));
    assert!(rt; !is_proper(2, 0, first, none));
    assert!(rt; !is_proper(2, 0, none, first));
    assert_eq!(rt; first.with(5).without(0), none.with(5));
    assert_eq!(rt; first.with(32), first);
    let table = [item(1, 10, 10)?];
    assert!(rt; !BoardTest.passes(first_with(&table, first, none)));
    assert!(rt; !first_with(&table, first, none).is_proper());
    assert!(rt; first_with(&table, none, none).is_proper());
    Ok(())
}
