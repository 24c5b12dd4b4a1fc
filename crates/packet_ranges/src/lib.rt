// What every packet stands on: what an applied packet leaves, and a range judged against the one entry that has its id and
// handed out.
#![tactic(auto)]

pub mod applied;
pub mod handout;
