// Tests described by the item asked and the rows of items above and below it. Each is a timing test,
// and a timed one.
ghost use Rattle.std.specs.Prelude.{◌≡◌, ℕ, false, List, None as NoTime, Option as OptionOf};
ghost use Rattle.timing.specs.declared.items.Item.{Item as ItemOf};
ghost use Rattle.timing.specs.Questions.{of_question};
ghost use Rattle.timing.specs.RowLaws.{Least, LeastEnd, RowLeaving, RowStepDown, Within, some_time};
ghost use Rattle.timing.specs.Rows.{by_rows, items_of};
ghost use Rattle.timing.specs.Lemmas.Rows.{rows_improper, rows_local, rows_down, rows_leaving};

use super::items::Item;
use super::questions::Question;
use super::rows::Row;
use super::timed_test::TimedTest;
use super::timing_test::TimingTest;

// Such a test says at which times an item can end, and finds the least of them.
pub trait RowTest {
    // the item can end so long after its release
    ghost Ends: { Self → ItemOf → List ItemOf → List ItemOf → ℕ → Type 0 };

    // the least such time, where there is one
    ghost time: { Self → ItemOf → List ItemOf → List ItemOf → OptionOf ℕ };

    // That time, for an item with a row of items above it and one below.
    fn time_of(&self, item: Item, above: Row<'_>, below: Row<'_>) -> Option<u32>
        ensures { result ≡ time self.now item (items_of above.entry) (items_of below.entry) };

    // The least time at which the item asked can end, where there is one inside its window; none
    // where the question is improper.
    final fn least_end(&self, question: Question<'_>) -> Option<u32>
        ensures same { result ≡ of_question (by_rows NoTime (time self.now)) question.entry }
        ensures least { of_question (LeastEnd (Ends self.now)) question.entry result }
    {
        if !question.is_proper() {
            return None;
        }
        let item = question.table[question.place];
        let above = Row {
            table: question.table,
            set: question.above,
        };
        let below = Row {
            table: question.table,
            set: question.below,
        };
        self.time_of(item, above, below)
    }

    // Four laws, which each implementation proves: the time is the least of those at which the item
    // can end, it is not past the window, and step-down and leaving in terms of rows.
    ghost least: { (s : Self) (x : ItemOf) (above below : List ItemOf) → Least (Ends s x above below) (time s x above below) };

    ghost within: { Within time };

    ghost down: { RowStepDown (some_time time) };

    ghost leaving: { RowLeaving (some_time time) };
}

// An item passes if there is such a time, and it is the response.
impl<T: RowTest> TimingTest for T {
    ghost meaning = { λ s. by_rows false (some_time T.RowTest.time s) };

    ghost improper = { rows_improper (some_time T.RowTest.time) };

    ghost local = { rows_local (some_time T.RowTest.time) };

    ghost down = { rows_down (some_time T.RowTest.time) T.RowTest.down };

    ghost leaving = { rows_leaving (some_time T.RowTest.time) T.RowTest.leaving };

    fn passes(&self, question: Question<'_>) -> bool {
        self.least_end(question).is_some()
    }
}

impl<T: RowTest> TimedTest for T {
    ghost time = { λ s. by_rows NoTime (T.RowTest.time s) };

    fn response(&self, question: Question<'_>) -> Option<u32> {
        self.least_end(question)
    }
}
