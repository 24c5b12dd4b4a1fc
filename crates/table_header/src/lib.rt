// The header of an allocation table.
#![tactic(auto)]

pub mod header;
