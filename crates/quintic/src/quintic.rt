// The extension of degree 5 of any number system, by a root of X^5 − w.
ghost use Rattle.extensions.specs.Schoolbook.{binomial};
ghost use Rattle.extensions.proofs.Lawful.{binomial_lawful};
ghost use Rattle.extensions.proofs.Products.{binomial_scales, quintic_passes};
ghost use Rattle.extensions.proofs.Roots.{root_conjugation};

use crate::arithmetic::{quintic_mul, quintic_square};
use crate::conjugates::quintic_inv;
use crate::quintuple::Quintuple;
use extensions::binomial::{Binomial, RootConstants, RootRule};
use extensions::element::Element;
use extensions::rule::Rule;
use numbers::system::System;

// An element c0 + c1 X + .. + c4 X⁴, where C gives w, which may be any element, and a root of one by which inverses are found.
pub type Quintic<S, C> = Element<S, Quintuple<S>, Binomial<C>>;

impl<S: System, C: RootConstants<Quintuple<S>, S>> Rule<Quintuple<S>, S> for Binomial<C> {
    ghost product = { λ n A o m. binomial n o (m C.BinomialConstants.w) };

    ghost lawful = { binomial_lawful 4 quintic_passes S.sys S.lawful (S.mean C.BinomialConstants.w) };

    ghost scaling = { binomial_scales 4 quintic_passes S.sys.ops S.lawful.ring (S.mean C.BinomialConstants.w) };

    fn mul(a: &Quintuple<S>, b: &Quintuple<S>) -> Quintuple<S> {
        quintic_mul(a, b, &C::w())
    }

    fn square(a: &Quintuple<S>) -> Quintuple<S> {
        quintic_square(a, &C::w())
    }

    fn inverse(a: &Quintuple<S>) -> Option<Quintuple<S>> {
        quintic_inv(a, &C::w(), &C::z())
    }
}

impl<S: System, C: RootConstants<Quintuple<S>, S>> RootRule<Quintuple<S>, S> for Binomial<C> {
    ghost roots = { λ z law. root_conjugation S.sys.ops S.lawful.ring z 4 law (S.mean C.BinomialConstants.w) };
}
