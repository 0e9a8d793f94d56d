// The constants w of the systems' extensions by a root of X^n − w.
ghost use Rattle.std.proofs.Common.{lit<, lit≤};
ghost use Rattle.std.specs.Prelude.{◌%◌, refl};
ghost use Rattle.bases.proofs.Held.{remainder_small};
ghost use Rattle.bases.specs.ResiduesLemmas.{res_path};

use bases::modulus::{Mersenne31, Modulus};
use bases::residue::Residue;
use extensions::binomial::BinomialConstants;
use extensions::element::Element;
use quadratic::complex::ComplexConstants;
use quadratic::pair::Pair;
use quadratic::quadratic::Quadratic;

// The whole number N as the constant w: its residue, whatever the modulus.
#[derive(Clone, Copy, Default)]
pub struct Whole<const N: u32>;

impl<M: Modulus, const N: u32> BinomialConstants<Residue<M>> for Whole<N> {
    ghost w = { record { value = N % M.MODULUS; modulus = record {}; small = remainder_small N M.MODULUS M.bounds } };

    fn w() -> Residue<M> {
        Residue::from(N)
    }
}

// Modulo 2^31 − 1 this is −1, so that X is the imaginary unit.
pub type MinusOne = Whole<2_147_483_646>;

impl ComplexConstants<Residue<Mersenne31>> for MinusOne {
    ghost negative = { res_path 2147483647 (lit≤ tt) _ _ refl };
}

// The complex layer of degree 2 over 2^31 − 1.
pub type Complex = Quadratic<Residue<Mersenne31>, MinusOne>;

// w = [0, 5], five times the imaginary unit
#[derive(Clone, Copy, Default)]
pub struct FiveI;

impl BinomialConstants<Complex> for FiveI {
    ghost w = { record { value = record { c0 = record { value = 0; modulus = record {}; small = lit< tt }; c1 = record { value = 5; modulus = record {}; small = lit< tt } }; below = record {}; rule = record {} } };

    fn w() -> Complex {
        Element::new(Pair {
            c0: Residue::from(0),
            c1: Residue::from(5),
        })
    }
}
