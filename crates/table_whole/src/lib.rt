// A whole allocation table at once, for a host that asks for its first error: what the steps would find, with no rows kept.
#![tactic(auto)]

pub mod whole;
