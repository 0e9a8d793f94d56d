// Inverses by the conjugates that a root z of one gives. The root law is a premise: a function that takes any z asks nothing of it.
ghost use Rattle.std.specs.Prelude.{◌≡◌, Some, None};
ghost use Rattle.algebra.specs.Units.{Inverts, NoInverse};
ghost use Rattle.extensions.specs.Conjugates.{RootLaw};
ghost use Rattle.extensions.specs.Extensions.{binomial_extension};
ghost use Rattle.quintic.specs.Quintuples.{quintuple, other_conjugates_of};

use crate::arithmetic::{quintic_mul, quintic_mul_low};
use crate::quintuple::Quintuple;
use extensions::below::scale;
use extensions::conjugates::{root_frobenius, root_repeated_frobenius};
use numbers::system::System;

// The product of the four conjugates of a but itself.
fn other_conjugates<S: System>(a: &Quintuple<S>, w: &S, z: &S) -> Quintuple<S>
    ensures { RootLaw S.sys.ops 5 (S.mean z.now) → quintuple S.mean result ≡ other_conjugates_of S.sys.ops (S.mean w.now) (S.mean z.now) (quintuple S.mean a.now) }
{
    // by two products, where the form for any degree takes three
    let a_exp_q = root_frobenius(a, z);
    let a_exp_q_plus_q_sq = root_frobenius(&quintic_mul(a, &a_exp_q, w), z);
    quintic_mul(
        &a_exp_q_plus_q_sq,
        &root_repeated_frobenius(&a_exp_q_plus_q_sq, z, 2),
        w,
    )
}

// The inverse: the product of the other conjugates over the norm, which lies in the layer below; none exactly where no element is one.
pub fn quintic_inv<S: System>(a: &Quintuple<S>, w: &S, z: &S) -> Option<Quintuple<S>>
    ensures { RootLaw S.sys.ops 5 (S.mean z.now) → elim result [ Some b ↦ Inverts (binomial_extension 4 S.sys (S.mean w.now)).ops (quintuple S.mean a.now) (quintuple S.mean b) | None ↦ NoInverse (binomial_extension 4 S.sys (S.mean w.now)).ops (quintuple S.mean a.now) ] }
{
    let prod_conj = other_conjugates(a, w, z);
    let norm = quintic_mul_low(a, &prod_conj, w);
    let scalar = norm.inverse()?;
    Some(scale(&prod_conj, &scalar))
}
