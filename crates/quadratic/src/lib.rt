// The extension of degree 2.
#![tactic(auto)]

pub mod arithmetic;
pub mod complex;
pub mod pair;
pub mod quadratic;
