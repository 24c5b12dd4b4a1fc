// How a phase of a submission ends, and the phase of its table's entries, one unit at a time: a loop over the few numbers that it
// changes, in place on lent rows.
#![tactic(auto)]

pub mod ending;
pub mod entries;
