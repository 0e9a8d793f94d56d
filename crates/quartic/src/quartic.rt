// The extension of degree 4 of any number system, by a root of X⁴ − w.
ghost use Rattle.extensions.specs.Schoolbook.{binomial};
ghost use Rattle.extensions.proofs.Lawful.{binomial_lawful};
ghost use Rattle.extensions.proofs.Products.{binomial_scales, quartic_passes};
ghost use Rattle.extensions.proofs.Roots.{root_conjugation};

use crate::arithmetic::{quartic_inv, quartic_mul, quartic_square};
use crate::quadruple::Quadruple;
use extensions::binomial::{Binomial, BinomialConstants, RootRule};
use extensions::element::Element;
use extensions::rule::Rule;
use numbers::system::System;

// An element c0 + c1 X + c2 X² + c3 X³, where C gives w.
pub type Quartic<S, C> = Element<S, Quadruple<S>, Binomial<C>>;

impl<S: System, C: BinomialConstants<S>> Rule<Quadruple<S>, S> for Binomial<C> {
    ghost product = { λ n A o m. binomial n o (m C.w) };

    ghost lawful = { binomial_lawful 3 quartic_passes S.sys S.lawful (S.mean C.w) };

    ghost scaling = { binomial_scales 3 quartic_passes S.sys.ops S.lawful.ring (S.mean C.w) };

    fn mul(a: &Quadruple<S>, b: &Quadruple<S>) -> Quadruple<S> {
        quartic_mul(a, b, &C::w())
    }

    fn square(a: &Quadruple<S>) -> Quadruple<S> {
        quartic_square(a, &C::w())
    }

    fn inverse(a: &Quadruple<S>) -> Option<Quadruple<S>> {
        quartic_inv(a, &C::w())
    }
}

impl<S: System, C: BinomialConstants<S>> RootRule<Quadruple<S>, S> for Binomial<C> {
    ghost roots = { λ z law. root_conjugation S.sys.ops S.lawful.ring z 3 law (S.mean C.w) };
}
