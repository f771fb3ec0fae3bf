// An item: a part ready for a timing test. Its limits stand in its type.
ghost use Rattle.std.specs.Prelude.{◌≤◌};
ghost use Rattle.chain.specs.Limits.{most_ticks};

// A part by its length, its period and its window, in ticks.
#[derive(Clone, Copy, Debug, PartialEq, Eq)]
pub struct Item {
    pub length: u32,
    pub period: u32,
    pub window: u32,
    ghost some: { 1 ≤ length },
    ghost fits: { length ≤ window },
    ghost ends: { window ≤ period },
    ghost few: { period ≤ most_ticks },
}
