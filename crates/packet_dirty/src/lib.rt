// The packet that hands out a range of a backed resource to be read.
#![tactic(auto)]

pub mod dirty;
