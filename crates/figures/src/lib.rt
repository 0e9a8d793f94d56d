// Figures that were worked out by hand, as the definitions have them and as the code gives them.
#![tactic(auto)]

pub mod answers;
pub mod arithmetic;
pub mod readings;
pub mod table;
#[cfg(test)]
mod tests;
