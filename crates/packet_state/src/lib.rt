// The state packets: the target, the scissor that is clipped to it, the viewport and the clear (02, wish 7).
#![tactic(auto)]

pub mod values;
