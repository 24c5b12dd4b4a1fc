// What form 2 has more (02, wish 11): section 3, other names, and section 4, tokens, each after its count.
#![tactic(auto)]

pub mod names;
pub mod tokens;
