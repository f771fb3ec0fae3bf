// Answering a question.
ghost use Rattle.std.specs.Prelude.{◌≡◌, ◌++◌, Some, codes};
ghost use Rattle.timing.specs.Questions.{of_question};
ghost use Rattle.crosscheck.specs.Answers.{answer as answer_to, replies, reply, reply_text};

use super::questions::{Question, Test};
use std::fmt;
use timing::questions::Question as Asked;
use timing::refusals::ItemRefusal;
use timing::timed_test::TimedTest;
use timing_tests::board::BoardTest;
use timing_tests::bus::BusTest;
use timing_tests::margin::Margin;

// What a test says of a question. `passes` is no flag beside `response`: each is the answer to its
// own call, and both are compared.
#[derive(Clone, Copy)]
pub struct Reply {
    pub passes: bool,
    pub response: Option<u32>,
}

// What a test says, and what it says with the margin.
#[derive(Clone, Copy)]
pub struct Replies {
    pub plain: Reply,
    pub tight: Reply,
}

impl fmt::Display for Reply {
    ghost output = { λ r. Some (reply_text r) };

    fn fmt<W: fmt::Write>(&self, f: &mut fmt::Formatter<W>) -> fmt::Result {
        let passes = if self.passes { "yes" } else { "no" };
        match self.response {
            Some(response) => write!(f, "{passes} {response}"),
            None => write!(f, "{passes} -"),
        }
    }
}

impl fmt::Display for Replies {
    ghost output = { λ r. Some (reply_text r.plain ++ (codes " " ++ reply_text r.tight)) };

    fn fmt<W: fmt::Write>(&self, f: &mut fmt::Formatter<W>) -> fmt::Result {
        let Replies { plain, tight } = self;
        write!(f, "{plain} {tight}")
    }
}

// Asks a test in both ways.
fn reply_of<T: TimedTest>(test: &T, asked: Asked<'_>) -> Reply
    ensures { result ≡ of_question (reply (T.TimingTest.meaning test.now) (T.TimedTest.time test.now)) asked.entry }
{
    Reply {
        passes: test.passes(asked),
        response: test.response(asked),
    }
}

// Asks a test alone and with the margin.
fn replies_of<T: TimedTest + Copy>(test: T, ticks: u32, asked: Asked<'_>) -> Replies
    ensures { result ≡ of_question (replies (T.TimingTest.meaning test) (T.TimedTest.time test) ticks) asked.entry }
{
    Replies {
        plain: reply_of(&test, asked),
        tight: reply_of(&Margin { test, ticks }, asked),
    }
}

impl Question {
    // What the test says; or, where no table could be made, the refusal of the item.
    pub(super) fn answer(&self) -> Result<Replies, ItemRefusal>
        ensures { result ≡ answer_to self.now }
    {
        let table = self.table.as_ref().map_err(|refusal| *refusal)?;
        let asked = Asked {
            table,
            place: self.place,
            above: self.above,
            below: self.below,
        };
        // A match and no `dyn`: the margin is generic over the test that it stands on.
        Ok(match self.test {
            Test::Board => replies_of(BoardTest, self.margin, asked),
            Test::Bus => replies_of(BusTest, self.margin, asked),
        })
    }
}
