// The reading of a sheet: a list of entries is read at a point of a number system, call by call, and its figure shows the value there of the polynomial
// whose coefficients the entries are.
#![tactic(auto)]

pub mod calls;
mod entries;
pub mod states;
