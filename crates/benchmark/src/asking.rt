// Asking, and counting what is answered.
ghost use Rattle.std.specs.Prelude.{◌≡◌, ◌+◌, ◌-◌, ◌*◌, ◌%◌, ◌^◌, ◌++◌, if◌then◌else◌, Some, None, codes, decimal, nat_lt};

use super::reading::Task;
use std::fmt;
use timing::items::Item;
use timing::places::PlaceSet;
use timing::questions::Question;
use timing::timed_test::TimedTest;
use timing_tests::board::BoardTest;
use timing_tests::bus::BusTest;

// How many questions had a response, and the sum of the responses.
#[derive(Clone, Copy, Default)]
pub struct Tally {
    pub passes: u64,
    pub sum: u64,
}

// What both tests answered.
#[derive(Clone, Copy, Default)]
pub struct Tallies {
    pub board: Tally,
    pub bus: Tally,
}

impl fmt::Display for Tally {
    ghost output = { λ tally. Some (decimal tally.passes ++ (codes " " ++ decimal tally.sum)) };

    fn fmt<W: fmt::Write>(&self, f: &mut fmt::Formatter<W>) -> fmt::Result {
        write!(f, "{} {}", self.passes, self.sum)
    }
}

impl Tally {
    // Counts what a test answered.
    fn add(&mut self, response: Option<u32>)
        ensures { elim response [ None ↦ self.new ≡ self.old | Some t ↦ self.new ≡ record { passes = (self.old.passes + 1) % 2 ^ 64; sum = (self.old.sum + t) % 2 ^ 64 } ] }
    {
        if let Some(response) = response {
            self.passes = self.passes.wrapping_add(1);
            self.sum = self.sum.wrapping_add(u64::from(response));
        }
    }
}

// The places of a table of `n` items, as far as a set can hold them.
fn all_places(n: usize) -> PlaceSet
    ensures { result.bits ≡ (if nat_lt n 32 then 2 ^ n else 2 ^ 32) - 1 }
{
    if n < 32 {
        PlaceSet { bits: (1 << n) - 1 }
    } else {
        PlaceSet { bits: u32::MAX }
    }
}

// The numbers that the sets of the questions are drawn from, each made of the one before.
#[derive(Drop)]
struct Draws {
    last: u32,
}

impl Iterator for Draws {
    type Item = u32;

    ghost next_gives = { λ old result new. (result ≡ Some new.last) × (new.last ≡ (old.last * 1664525 + 1013904223) % 2 ^ 32) };

    fn next(&mut self) -> Option<u32> {
        self.last = self
            .last
            .wrapping_mul(1_664_525)
            .wrapping_add(1_013_904_223);
        Some(self.last)
    }
}

impl Tallies {
    // Asks both tests about a place, with the other places divided by the bits of a number.
    fn ask(&mut self, table: &[Item], place: usize, drawn: u32) {
        let others = all_places(table.len()).without(place);
        let question = Question {
            table,
            place,
            above: PlaceSet {
                bits: drawn & others.bits,
            },
            below: PlaceSet {
                bits: !drawn & others.bits,
            },
        };
        self.board.add(BoardTest.response(question));
        self.bus.add(BusTest.response(question));
    }
}

impl Task {
    // What the board test and the bus test answer.
    pub(super) fn ask(&self) -> Tallies {
        let table = self.table.as_slice();
        let mut draws = Draws { last: 1 };
        let mut tallies = Tallies::default();
        for _ in 0..self.rounds {
            // A place is what is asked about, so places are counted.
            for (place, drawn) in (0..table.len()).zip(&mut draws) {
                tallies.ask(table, place, drawn);
            }
        }
        tallies
    }
}
