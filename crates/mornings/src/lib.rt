// What a morning is, and how its lines are read: a system, a point, the calls of the dock and those of one to six handsets.
#![tactic(auto)]

pub mod drafts;
pub mod draws;
pub mod items;
pub mod parse;
pub mod points;
