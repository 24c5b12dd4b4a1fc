// The packets that use a token of a shared texture (02, wish 5): import and release.
// The records are not lent: the contracts hold whatever they are.
#![tactic(auto)]

pub mod bound;
pub mod import;
pub mod release;
