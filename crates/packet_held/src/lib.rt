// What a submission holds from packet to packet: resources and records, the target (`held`), and tokens.
#![tactic(auto)]

pub mod held;
pub mod tokens;
