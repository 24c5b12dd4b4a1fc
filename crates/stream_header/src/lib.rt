// The header of a command stream.
#![tactic(auto)]

pub mod header;
