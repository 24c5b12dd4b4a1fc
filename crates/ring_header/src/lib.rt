// The ring's header: each field read once, and judged; and where the slot to open stands.
#![tactic(auto)]

pub mod header;
