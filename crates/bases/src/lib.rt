// The systems that others are built on: residues modulo m, and the field of two elements.
#![tactic(auto)]

pub mod bit;
mod euclid;
pub mod modulus;
pub mod residue;
