// The chain file: a version, a board count, and a record for each chain. The reader goes through
// the records one by one and refuses by the first check that fails; the whole of what it does is
// given by one definition of the format. It stands on `chain`, whose drafting calls check and
// make the chains.
#![tactic(auto)]

pub mod fields;
pub mod readers;
pub mod reading;
pub mod refusals;
