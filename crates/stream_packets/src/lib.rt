// The command stream, one packet at a time: where each ends, and the reading of it.
#![tactic(auto)]

pub mod framing;
