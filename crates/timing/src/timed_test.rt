// Timing tests that also say when.
ghost use Rattle.std.specs.Prelude.{◌≡◌, ℕ, List, Option as OptionOf};
ghost use Rattle.timing.specs.declared.items.Item.{Item as ItemOf};
ghost use Rattle.timing.specs.Questions.{of_question};
ghost use Rattle.timing.specs.Laws.{Timely};

use super::questions::Question;
use super::timing_test::TimingTest;

// A timed test gives a response, the ticks from an item's release to its end at the latest.
pub trait TimedTest: TimingTest {
    ghost time: { Self → List ItemOf → ℕ → ℕ → ℕ → OptionOf ℕ };

    // The response that the test's own definition gives: there is one exactly where the item
    // passes, and it is at most the item's window.
    fn response(&self, question: Question<'_>) -> Option<u32>
        ensures same { result ≡ of_question (time self.now) question.entry }
        ensures timely { Timely (of_question (Self.TimingTest.meaning self.now) question.entry) question.entry.table.now question.entry.place result };
}
