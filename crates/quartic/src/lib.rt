// The extension of degree 4.
#![tactic(auto)]

pub mod arithmetic;
pub mod quadruple;
pub mod quartic;
