// A margin over any timing test.
ghost use Rattle.std.specs.Prelude.{◌≡◌, ◌<◌, ◌≤◌, false, length, take, None as NoTime, slice_set};
ghost use Rattle.timing.specs.Questions.{of_question};
ghost use Rattle.timing_tests.specs.Margin.{margin};
ghost use Rattle.timing_tests.specs.Steps.{Narrowed, Tightened};
ghost use Rattle.timing_tests.specs.Lemmas.MarginLaws.{margin-improper, margin-local, margin-down, margin-leaving};

use timing::items::Item;
use timing::questions::Question;
use timing::timed_test::TimedTest;
use timing::timing_test::TimingTest;

// A test that asks the one below it with the window of the item asked reduced by some ticks.
#[derive(Clone, Copy, Debug, PartialEq, Eq)]
pub struct Margin<T> {
    pub test: T,
    pub ticks: u32,
}

// The item with its window reduced, where that leaves its length. An `if`, since `then_some` would make
// the item before the test, and the closure of `then` would have to require what the test says.
fn tightened(item: Item, ticks: u32) -> Option<Item>
    ensures { Tightened item ticks result }
{
    if ticks <= item.window - item.length {
        Some(Item {
            length: item.length,
            period: item.period,
            window: item.window - ticks,
        })
    } else {
        None
    }
}

// The table with another item at one place; behind it the copy is filled up. An array, since asking
// takes no memory; the kit's vector of fixed capacity is begun with a default item, and there is none.
#[tactic(auto, using(crate::proofs::Copies::front_set))]
fn replaced(table: &[Item], place: usize, item: Item) -> [Item; 32]
    requires few { length table.now ≤ 32 }
    requires inside { place < length table.now }
    ensures { take (length table.now) result ≡ slice_set table.now place item }
{
    let mut copy = [item; 32];
    copy[..table.len()].copy_from_slice(table);
    copy[place] = item;
    copy
}

// The table that the test below is asked about, behind which the copy is filled up. Always inlined,
// since a call of its own would hand the copy over by copying it.
#[inline(always)]
fn narrowed(question: Question<'_>, ticks: u32) -> Option<[Item; 32]>
    ensures { of_question (Narrowed ticks) question.entry result }
{
    if !question.is_proper() {
        return None;
    }
    let item = tightened(question.table[question.place], ticks)?;
    Some(replaced(question.table, question.place, item))
}

impl<T: TimingTest> TimingTest for Margin<T> {
    ghost meaning = { λ m. margin false (T.TimingTest.meaning m.test) m.ticks };

    ghost improper = { margin-improper T.TimingTest.meaning (λ m. m.test) (λ m. m.ticks) };

    ghost local = { margin-local T.TimingTest.meaning (λ m. m.test) (λ m. m.ticks) T.TimingTest.local };

    ghost down = { margin-down T.TimingTest.meaning (λ m. m.test) (λ m. m.ticks) T.TimingTest.down };

    ghost leaving = { margin-leaving T.TimingTest.meaning (λ m. m.test) (λ m. m.ticks) T.TimingTest.leaving };

    // A `let`, since the closure of `is_some_and` would have to require the table's length.
    fn passes(&self, question: Question<'_>) -> bool {
        let Some(tight) = narrowed(question, self.ticks) else {
            return false;
        };
        let table = &tight[..question.table.len()];
        self.test.passes(Question { table, ..question })
    }
}

// The body of `response` goes as that of `passes`: one for both would be passed the call to make, and
// have to say of a table that it makes itself what that was called with.
impl<T: TimedTest> TimedTest for Margin<T> {
    ghost time = { λ m. margin NoTime (T.TimedTest.time m.test) m.ticks };

    fn response(&self, question: Question<'_>) -> Option<u32> {
        let tight = narrowed(question, self.ticks)?;
        let table = &tight[..question.table.len()];
        self.test.response(Question { table, ..question })
    }
}
