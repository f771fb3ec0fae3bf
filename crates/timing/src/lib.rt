// Timing tests, as the rest of the planner knows them: items, tables of items, sets of places,
// and the question whether one item of a table passes with some items above it and some below. A
// test is any type with the trait `TimingTest`, known only by its meaning and four laws; one that is
// described by rows of items is a `RowTest`, and then a timing test. It stands on `chain` for the
// limit on ticks and the way refusals are stated.
#![tactic(auto)]

pub mod items;
pub mod making;
pub mod places;
pub mod questions;
pub mod refusals;
pub mod row_test;
pub mod rows;
pub mod timed_test;
pub mod timing_test;
