// The question that every timing test answers, and all that the rest of the planner knows of a
// test.
ghost use Rattle.std.specs.Prelude.{◌≡◌, ℕ, Bool, List};
ghost use Rattle.timing.specs.declared.items.Item.{Item as ItemOf};
ghost use Rattle.timing.specs.Questions.{of_question};
ghost use Rattle.timing.specs.Laws.{ImproperIsNo, Leaving, Local, StepDown};

use super::questions::Question;

// A timing test answers a question with yes or no.
pub trait TimingTest {
    ghost meaning: { Self → List ItemOf → ℕ → ℕ → ℕ → Bool };

    // What the meaning says of the question; nothing is changed.
    fn passes(&self, question: Question<'_>) -> bool
        ensures { result ≡ of_question (meaning self.now) question.entry };

    // Four laws, which each implementation proves. They stand below the last method, where the
    // language looks for laws.
    ghost improper: { ImproperIsNo meaning };

    ghost local: { Local meaning };

    ghost down: { StepDown meaning };

    ghost leaving: { Leaving meaning };
}
