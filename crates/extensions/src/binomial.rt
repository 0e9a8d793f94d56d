// What the extensions by a root of X^n − w have in common, whatever n is.
ghost use Rattle.std.specs.Prelude.{◌≡◌, suc};
ghost use Rattle.extensions.specs.Conjugates.{Conjugation, RootLaw, root_frobenius_map};

use crate::coefficients::Coefficients;
use crate::conjugates::{ConjugateRule, root_frobenius, root_repeated_frobenius};
use crate::element::Element;
use crate::rule::Rule;
use numbers::system::System;
use std::marker::PhantomData;

// The constant of such an extension: w, with X^n = w. Every w is allowed.
pub trait BinomialConstants<S: System>: Copy + Default {
    ghost w: { S };

    fn w() -> S
        ensures { result ≡ w };
}

// The further constant of such an extension with conjugates, whose coefficients are V: a root z of one.
pub trait RootConstants<V: Coefficients<S>, S: System>: BinomialConstants<S> {
    ghost z: { S };

    // z^n is one, n being the degree, and z^i − 1 has an inverse for each i from 1 to n − 1.
    fn z() -> S
        ensures value { result ≡ z }
        ensures root { RootLaw S.sys.ops (suc V.d) (S.mean result) };
}

// The rule of products modulo X^n − w, with the constants of C.
#[derive(Clone, Copy)]
pub struct Binomial<C> {
    constants: PhantomData<C>,
}

// A rule for whose products each root of one gives conjugates: multiplying the coefficient at each power i by z^i keeps sums and products.
pub trait RootRule<V: Coefficients<S>, S: System>: Rule<V, S> {
    ghost roots: { (z : S.sys.Elem) → RootLaw S.sys.ops (suc V.d) z → Conjugation V.d S.sys.ops (Self.Rule.product (suc V.d) S.sys.Elem S.sys.ops S.mean) (root_frobenius_map (suc V.d) S.sys.ops z) };
}

impl<S: System, V: Coefficients<S>, C: RootConstants<V, S>> ConjugateRule<V, S> for Binomial<C>
where
    Binomial<C>: RootRule<V, S>,
{
    ghost conjugate = { λ n A o m. root_frobenius_map n o (m C.z) };

    fn frobenius(a: &Element<S, V, Binomial<C>>) -> Element<S, V, Binomial<C>> {
        root_frobenius(a, &C::z())
    }

    fn repeated_frobenius(
        a: &Element<S, V, Binomial<C>>,
        count: u64,
    ) -> Element<S, V, Binomial<C>> {
        root_repeated_frobenius(a, &C::z(), count)
    }
}
