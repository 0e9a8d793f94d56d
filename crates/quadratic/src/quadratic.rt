// The extension of degree 2 of any number system, by a root of X² − w.
ghost use Rattle.extensions.specs.Schoolbook.{binomial};
ghost use Rattle.extensions.proofs.Lawful.{binomial_lawful};
ghost use Rattle.extensions.proofs.Products.{binomial_scales, quadratic_passes};
ghost use Rattle.extensions.proofs.Roots.{root_conjugation};

use crate::arithmetic::{quadratic_extension_square, quadratic_inv, quadratic_mul};
use crate::pair::Pair;
use extensions::binomial::{Binomial, BinomialConstants, RootRule};
use extensions::element::Element;
use extensions::rule::Rule;
use numbers::system::System;

// An element c0 + c1 X, where C gives w.
pub type Quadratic<S, C> = Element<S, Pair<S>, Binomial<C>>;

impl<S: System, C: BinomialConstants<S>> Rule<Pair<S>, S> for Binomial<C> {
    ghost product = { λ n A o m. binomial n o (m C.w) };

    ghost lawful = { binomial_lawful 1 quadratic_passes S.sys S.lawful (S.mean C.w) };

    ghost scaling = { binomial_scales 1 quadratic_passes S.sys.ops S.lawful.ring (S.mean C.w) };

    fn mul(a: &Pair<S>, b: &Pair<S>) -> Pair<S> {
        quadratic_mul(a, b, &C::w())
    }

    fn square(a: &Pair<S>) -> Pair<S> {
        quadratic_extension_square(a, &C::w())
    }

    fn inverse(a: &Pair<S>) -> Option<Pair<S>> {
        quadratic_inv(a, &C::w())
    }
}

impl<S: System, C: BinomialConstants<S>> RootRule<Pair<S>, S> for Binomial<C> {
    ghost roots = { λ z law. root_conjugation S.sys.ops S.lawful.ring z 1 law (S.mean C.w) };
}
