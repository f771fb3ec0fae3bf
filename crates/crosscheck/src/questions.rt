// Reading a question.
ghost use Rattle.crosscheck.specs.Questions.{ReadsTest};

use anyhow::{Context, anyhow, bail};
use std::alloc::Global;
use std::str::FromStr;
use timing::items::Item;
use timing::places::PlaceSet;
use timing::refusals::ItemRefusal;

// Which test is asked.
#[derive(Clone, Copy)]
pub enum Test {
    Board,
    Bus,
}

impl FromStr for Test {
    type Err = anyhow::Error;

    ghost from_str_gives = { ReadsTest };

    fn from_str(word: &str) -> anyhow::Result<Test> {
        match word {
            "board" => Ok(Test::Board),
            "bus" => Ok(Test::Bus),
            _ => Err(anyhow!("no such test")),
        }
    }
}

// A question to a test, alone and with a margin.
#[derive(Drop)]
pub struct Question {
    pub test: Test,
    pub margin: u32,
    pub place: usize,
    pub above: PlaceSet,
    pub below: PlaceSet,
    // The items of the table; or, where numbers are outside the limits, the refusal of the first
    // such item.
    pub table: Result<Vec<Item>, ItemRefusal>,
}

impl Question {
    // The whole line is read before any item is made, so that a line that is no question is never
    // answered by a refusal.
    pub(super) fn read(heap: Global, line: &str) -> anyhow::Result<Question> {
        let (test, words) = line
            .split_once(' ')
            .context("a question has at least five words")?;
        let test = test.parse::<Test>()?;
        // As `benchmark` reads its line, but for what stands first and for the error of an item; a crate
        // for two chains of the library's methods would be no plainer.
        let numbers = words
            .split(' ')
            .map(|word| word.parse::<u32>())
            .collect::<Result<Vec<_>, _>>(heap)??;
        let [margin, place, above, below, items @ ..] = numbers.as_slice() else {
            bail!("a question has at least five words");
        };
        let (triples, []) = items.as_chunks::<3>() else {
            bail!("an item has three numbers");
        };
        let table = triples
            .iter()
            .map(|[length, period, window]| Item::new(*length, *period, *window))
            .collect(heap)?;
        Ok(Question {
            test,
            margin: *margin,
            place: *place as usize,
            above: PlaceSet { bits: *above },
            below: PlaceSet { bits: *below },
            table,
        })
    }
}
