// What the two creating packets do to a submission's resources and records: judged in the order of the rules, then stored.
#![tactic(auto)]

pub mod create;
