// The packet that binds a token to a texture, so that other programs may share it (02, wish 5).
// The records are not lent: the contract holds whatever they are.
#![tactic(auto)]

pub mod export;
