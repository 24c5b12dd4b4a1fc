// Names of resources in their rows: which resources may be shared, and lowest names changed.
#![tactic(auto)]

pub mod naming;
