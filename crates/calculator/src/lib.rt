// A calculator for the bases and the nine systems: it reads a command from a line, works it out, and says what comes of it.
#![tactic(auto)]

mod calls;
pub mod command;
pub mod evaluate;
pub mod line;
pub mod parse;
pub mod respond;
mod systems;
pub mod text;
