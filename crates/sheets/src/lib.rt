// Whole runs of a reading, and what the figures of two sheets tell of the sheets.
#![tactic(auto)]

pub mod comparison;
pub mod runs;
