// The extension of degree 5 by a root of X^5 + X² − 1.
#![tactic(auto)]

pub mod arithmetic;
pub mod conjugates;
pub mod rows;
pub mod trinomial;
