// The number systems that the handsets use.
#![tactic(auto)]

pub mod constants;
pub mod roots;
pub mod systems;
pub mod tables;
