// The packet that destroys a resource.
#![tactic(auto)]

pub mod destroy;
