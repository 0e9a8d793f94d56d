// The extension of degree 3.
#![tactic(auto)]

pub mod arithmetic;
pub mod cubic;
pub mod triple;
