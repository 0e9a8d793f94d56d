// A tower that no catalog lists: degree 8 over degree 3 over the residues modulo 12, which have zero divisors. Only its constants are written here; that it is a number
// system, with products, lists and exact inverses, is proved of every tower.
#![tactic(auto)]

ghost use Rattle.std.proofs.Common.{lit≤, lit<};

use bases::modulus::Modulus;
use bases::residue::Residue;
use cubic::cubic::Cubic;
use cubic::triple::Triple;
use extensions::binomial::BinomialConstants;
use extensions::element::Element;
use octic::octic::Octic;

#[cfg(test)]
mod tests;

// The modulus 12.
#[derive(Clone, Copy, Default)]
pub struct Twelve;

impl Modulus for Twelve {
    const MODULUS: u32 = 12;

    ghost MODULUS = { 12 };

    ghost bounds = { record { low = lit≤ tt; high = lit< tt } };
}

// X³ = 5; a type of its own, so that the tower stands without the catalog
#[derive(Clone, Copy, Default)]
pub struct Five;

impl BinomialConstants<Residue<Twelve>> for Five {
    ghost w = { record { value = 5; modulus = record {}; small = lit< tt } };

    fn w() -> Residue<Twelve> {
        Residue::from(5)
    }
}

// Y⁸ = X
#[derive(Clone, Copy, Default)]
pub struct CubicRoot;

impl BinomialConstants<Cubic<Residue<Twelve>, Five>> for CubicRoot {
    ghost w = { record { value = record { c0 = record { value = 0; modulus = record {}; small = lit< tt }; c1 = record { value = 1; modulus = record {}; small = lit< tt }; c2 = record { value = 0; modulus = record {}; small = lit< tt } }; below = record {}; rule = record {} } };

    fn w() -> Cubic<Residue<Twelve>, Five> {
        Element::new(Triple {
            c0: Residue::from(0),
            c1: Residue::from(1),
            c2: Residue::from(0),
        })
    }
}

// The tower: 24 numbers to an element.
pub type Tower = Octic<Cubic<Residue<Twelve>, Five>, CubicRoot>;
