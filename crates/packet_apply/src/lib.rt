// Any packet, by the crate of its kind, in place on lent rows.
#![tactic(auto)]

pub mod apply;
