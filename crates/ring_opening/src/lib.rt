// The opening: the ring's header, the descriptor at its head, and the headers of its table and stream, in the rules' order.
// What later steps use of it is named in one struct, `Opened`.
#![tactic(auto)]

pub mod opening;
