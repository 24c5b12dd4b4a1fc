// The packet that copies between buffers, with or without a writeback.
#![tactic(auto)]

pub mod copy;
