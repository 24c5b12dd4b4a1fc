// What a packet says: the fields of its own part of the stream, each read once.
#![tactic(auto)]

pub mod fields;
