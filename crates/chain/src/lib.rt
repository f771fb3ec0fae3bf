// Chains of stages: how a chain is drafted, the limits it always keeps, and the windows of its
// parts once every stage has a board. A draft that waits for a stage and one that has just taken
// a stage are two types, so a chain with a message too many is not a program. It stands on
// nothing but the standard library.
#![tactic(auto)]

pub mod chains;
pub mod drafting;
pub mod drafts;
pub mod headings;
mod paces;
pub mod parts;
mod placed;
pub mod refusals;
pub mod stages;
pub mod windows;

// The most stages of a chain, and the most boards that a pin can name. Types and definitions take
// both as parameters: the code fixes them here, the definitions in specs/Limits.antt.
pub const STAGES: usize = 6;

pub const BOARDS: u8 = 4;

// The longest period, and the longest stage or message.
pub const MOST_TICKS: u32 = 1_000_000;
