// Number systems: the interface that everything above stands on, and what is worked out from its functions alone.
#![tactic(auto)]

pub mod dot_products;
pub mod folds;
pub mod listed;
pub mod powers;
pub mod refusal;
pub mod system;
