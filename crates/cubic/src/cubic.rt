// The extension of degree 3 of any number system, by a root of X³ − w.
ghost use Rattle.extensions.specs.Schoolbook.{binomial};
ghost use Rattle.extensions.proofs.Lawful.{binomial_lawful};
ghost use Rattle.extensions.proofs.Products.{binomial_scales, cubic_passes};
ghost use Rattle.extensions.proofs.Roots.{root_conjugation};

use crate::arithmetic::{cubic_inv, cubic_mul, cubic_square};
use crate::triple::Triple;
use extensions::binomial::{Binomial, BinomialConstants, RootRule};
use extensions::element::Element;
use extensions::rule::Rule;
use numbers::system::System;

// An element c0 + c1 X + c2 X², where C gives w.
pub type Cubic<S, C> = Element<S, Triple<S>, Binomial<C>>;

impl<S: System, C: BinomialConstants<S>> Rule<Triple<S>, S> for Binomial<C> {
    ghost product = { λ n A o m. binomial n o (m C.w) };

    ghost lawful = { binomial_lawful 2 cubic_passes S.sys S.lawful (S.mean C.w) };

    ghost scaling = { binomial_scales 2 cubic_passes S.sys.ops S.lawful.ring (S.mean C.w) };

    fn mul(a: &Triple<S>, b: &Triple<S>) -> Triple<S> {
        cubic_mul(a, b, &C::w())
    }

    fn square(a: &Triple<S>) -> Triple<S> {
        cubic_square(a, &C::w())
    }

    fn inverse(a: &Triple<S>) -> Option<Triple<S>> {
        cubic_inv(a, &C::w())
    }
}

impl<S: System, C: BinomialConstants<S>> RootRule<Triple<S>, S> for Binomial<C> {
    ghost roots = { λ z law. root_conjugation S.sys.ops S.lawful.ring z 2 law (S.mean C.w) };
}
