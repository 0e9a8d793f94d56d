// The extension of degree 5 by a root of X^5 − w.
#![tactic(auto)]

pub mod arithmetic;
pub mod conjugates;
pub mod quintic;
pub mod quintuple;
