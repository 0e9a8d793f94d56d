// The extension of degree 8 of any number system, by a root of X⁸ − w.
ghost use Rattle.extensions.specs.Schoolbook.{binomial};
ghost use Rattle.extensions.proofs.Lawful.{binomial_lawful};
ghost use Rattle.extensions.proofs.Products.{binomial_scales, octic_passes};
ghost use Rattle.extensions.proofs.Roots.{root_conjugation};

use crate::arithmetic::{octic_inv, octic_mul, octic_square};
use crate::octuple::Octuple;
use extensions::binomial::{Binomial, BinomialConstants, RootRule};
use extensions::element::Element;
use extensions::rule::Rule;
use numbers::system::System;

// An element c0 + c1 X + .. + c7 X⁷, where C gives w.
pub type Octic<S, C> = Element<S, Octuple<S>, Binomial<C>>;

impl<S: System, C: BinomialConstants<S>> Rule<Octuple<S>, S> for Binomial<C> {
    ghost product = { λ n A o m. binomial n o (m C.w) };

    ghost lawful = { binomial_lawful 7 octic_passes S.sys S.lawful (S.mean C.w) };

    ghost scaling = { binomial_scales 7 octic_passes S.sys.ops S.lawful.ring (S.mean C.w) };

    fn mul(a: &Octuple<S>, b: &Octuple<S>) -> Octuple<S> {
        octic_mul(a, b, &C::w())
    }

    fn square(a: &Octuple<S>) -> Octuple<S> {
        octic_square(a, &C::w())
    }

    fn inverse(a: &Octuple<S>) -> Option<Octuple<S>> {
        octic_inv(a, &C::w())
    }
}

impl<S: System, C: BinomialConstants<S>> RootRule<Octuple<S>, S> for Binomial<C> {
    ghost roots = { λ z law. root_conjugation S.sys.ops S.lawful.ring z 7 law (S.mean C.w) };
}
