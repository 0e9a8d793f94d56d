// The extension of degree 8.
#![tactic(auto)]

pub mod arithmetic;
pub mod octic;
pub mod octuple;
