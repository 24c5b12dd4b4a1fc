// A submission's descriptor: read once, and judged.
#![tactic(auto)]

pub mod descriptor;
