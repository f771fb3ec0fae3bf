// Reading what is to be asked.
use anyhow::{anyhow, bail};
use std::alloc::Global;
use timing::items::Item;

// What is to be asked: a table, and how many times over.
#[derive(Drop)]
pub struct Task {
    pub rounds: u32,
    pub table: Vec<Item>,
}

impl Task {
    // The whole line is read before any item is made.
    pub(super) fn read(heap: Global, line: &str) -> anyhow::Result<Task> {
        // As `crosscheck` reads a question: the library's methods in both, and no crate for two chains.
        let numbers = line
            .split(' ')
            .map(|word| word.parse::<u32>())
            .collect::<Result<Vec<_>, _>>(heap)??;
        let [rounds, items @ ..] = numbers.as_slice() else {
            bail!("there are no rounds");
        };
        let (triples, []) = items.as_chunks::<3>() else {
            bail!("an item has three numbers");
        };
        let table = triples
            .iter()
            .map(|[length, period, window]| Item::new(*length, *period, *window))
            .collect::<Result<Vec<_>, _>>(heap)?
            .map_err(|_| anyhow!("an item is outside the limits"))?;
        Ok(Task {
            rounds: *rounds,
            table,
        })
    }
}
