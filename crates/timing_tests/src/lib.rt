// The timing tests that the planner comes with: the board test, the bus test, and a margin over
// any test. Each finds the least time that covers the demand, is proved to answer just what its
// definition says, a relation over that time, and shows the laws that `timing` asks of every test.
#![tactic(auto)]

pub mod board;
pub mod bus;
mod demand;
pub mod margin;
