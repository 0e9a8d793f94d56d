// The extension of degree 5 of any number system, by a root of X^5 + X² − 1.
ghost use Rattle.std.specs.Prelude.{◌≡◌};
ghost use Rattle.extensions.specs.Conjugates.{TableLaw};
ghost use Rattle.trinomial.specs.Rows.{rows, product_of, table_map};
ghost use Rattle.trinomial.specs.declared.rows.Rows.{Rows};
ghost use Rattle.extensions.proofs.Lawful.{trinomial_lawful};
ghost use Rattle.extensions.proofs.Products.{trinomial_scales};

use crate::arithmetic::{quintic_square, trinomial_quintic_mul};
use crate::conjugates::{trinomial_frobenius, trinomial_inv, trinomial_repeated_frobenius};
use crate::rows::Rows;
use extensions::conjugates::ConjugateRule;
use extensions::element::Element;
use extensions::rule::Rule;
use numbers::system::System;
use quintic::quintuple::Quintuple;
use std::marker::PhantomData;

// The constants of the extension: the rows of Frobenius, by which inverses are found.
pub trait TrinomialConstants<S: System>: Copy + Default {
    ghost table: { Rows S };

    // The rows keep the table law.
    fn table() -> Rows<S>
        ensures value { result ≡ table }
        ensures table { TableLaw S.sys.ops (rows S.mean result) };
}

// The rule of products modulo X^5 + X² − 1, with the constants of C.
#[derive(Clone, Copy)]
pub struct Trinomial<C> {
    constants: PhantomData<C>,
}

// An element c0 + c1 X + .. + c4 X⁴, where C gives the rows.
pub type TrinomialQuintic<S, C> = Element<S, Quintuple<S>, Trinomial<C>>;

impl<S: System, C: TrinomialConstants<S>> Rule<Quintuple<S>, S> for Trinomial<C> {
    ghost product = { λ n A o m. product_of n o };

    ghost lawful = { trinomial_lawful S.sys S.lawful };

    ghost scaling = { trinomial_scales S.sys.ops S.lawful.ring };

    fn mul(a: &Quintuple<S>, b: &Quintuple<S>) -> Quintuple<S> {
        trinomial_quintic_mul(a, b)
    }

    fn square(a: &Quintuple<S>) -> Quintuple<S> {
        quintic_square(a)
    }

    fn inverse(a: &Quintuple<S>) -> Option<Quintuple<S>> {
        trinomial_inv(a, &C::table())
    }
}

impl<S: System, C: TrinomialConstants<S>> ConjugateRule<Quintuple<S>, S> for Trinomial<C> {
    ghost conjugate = { λ n A o m. table_map n o (rows m C.table) };

    fn frobenius(a: &TrinomialQuintic<S, C>) -> TrinomialQuintic<S, C> {
        Element::new(trinomial_frobenius(&a.value, &C::table()))
    }

    fn repeated_frobenius(a: &TrinomialQuintic<S, C>, count: u64) -> TrinomialQuintic<S, C> {
        Element::new(trinomial_repeated_frobenius(&a.value, &C::table(), count))
    }
}
