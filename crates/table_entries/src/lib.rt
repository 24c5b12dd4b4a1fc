// The allocation table's entries, one at a time as the steps take them.
#![tactic(auto)]

pub mod entry;
