// Conjugates by a table of rows, and inverses by them. The table law is a premise: a function that takes any rows asks nothing of them.
ghost use Rattle.std.specs.Prelude.{◌≡◌, ℕ, Some, None};
ghost use Rattle.algebra.specs.Units.{Inverts, NoInverse};
ghost use Rattle.extensions.specs.Conjugates.{repeated, Conjugation, TableLaw, table_frobenius};
ghost use Rattle.extensions.specs.Extensions.{trinomial_extension};
ghost use Rattle.extensions.specs.Schoolbook.{trinomial};
ghost use Rattle.quintic.specs.Quintuples.{quintuple};
ghost use Rattle.trinomial.specs.Rows.{rows, other_conjugates_of};

use crate::arithmetic::{trinomial_mul_low, trinomial_quintic_mul};
use crate::rows::Rows;
use extensions::below::scale;
use numbers::system::System;
use quintic::quintuple::Quintuple;

// The Frobenius image a0 + a1 T1 + a2 T2 + a3 T3 + a4 T4.
pub fn trinomial_frobenius<S: System>(a: &Quintuple<S>, t: &Rows<S>) -> Quintuple<S>
    ensures image { quintuple S.mean result ≡ table_frobenius S.sys.ops (rows S.mean t.now) (quintuple S.mean a.now) }
    ensures conjugation { TableLaw S.sys.ops (rows S.mean t.now) → Conjugation 4 S.sys.ops (trinomial S.sys.ops) (table_frobenius S.sys.ops (rows S.mean t.now)) }
{
    let tail = S::dot_product_4(
        &a.c1, &t.t1.c0, &a.c2, &t.t2.c0, &a.c3, &t.t3.c0, &a.c4, &t.t4.c0,
    );
    Quintuple {
        c0: a.c0.add(&tail),
        c1: S::dot_product_4(
            &a.c1, &t.t1.c1, &a.c2, &t.t2.c1, &a.c3, &t.t3.c1, &a.c4, &t.t4.c1,
        ),
        c2: S::dot_product_4(
            &a.c1, &t.t1.c2, &a.c2, &t.t2.c2, &a.c3, &t.t3.c2, &a.c4, &t.t4.c2,
        ),
        c3: S::dot_product_4(
            &a.c1, &t.t1.c3, &a.c2, &t.t2.c3, &a.c3, &t.t3.c3, &a.c4, &t.t4.c3,
        ),
        c4: S::dot_product_4(
            &a.c1, &t.t1.c4, &a.c2, &t.t2.c4, &a.c3, &t.t3.c4, &a.c4, &t.t4.c4,
        ),
    }
}

// The Frobenius image taken `count` times; five times give every element back.
pub fn trinomial_repeated_frobenius<S: System>(
    a: &Quintuple<S>,
    t: &Rows<S>,
    count: u64,
) -> Quintuple<S>
    ensures { TableLaw S.sys.ops (rows S.mean t.now) → quintuple S.mean result ≡ repeated (table_frobenius S.sys.ops (rows S.mean t.now)) count (quintuple S.mean a.now) }
{
    let mut image = *a;
    for _k in 0..count % 5 {
        image = trinomial_frobenius(&image, t);
    }
    image
}

// The product of the four conjugates of a but itself.
fn other_conjugates<S: System>(a: &Quintuple<S>, t: &Rows<S>) -> Quintuple<S>
    ensures { quintuple S.mean result ≡ other_conjugates_of S.sys.ops (rows S.mean t.now) (quintuple S.mean a.now) }
{
    // by two products, where the form for any degree takes three
    let a_exp_p = trinomial_frobenius(a, t);
    let a_exp_p_plus_p2 = trinomial_frobenius(&trinomial_quintic_mul(a, &a_exp_p), t);
    let once = trinomial_frobenius(&a_exp_p_plus_p2, t);
    trinomial_quintic_mul(&a_exp_p_plus_p2, &trinomial_frobenius(&once, t))
}

// The inverse: the product of the other conjugates over the norm, which lies in the layer below; none exactly where no element is one.
pub fn trinomial_inv<S: System>(a: &Quintuple<S>, t: &Rows<S>) -> Option<Quintuple<S>>
    ensures { TableLaw S.sys.ops (rows S.mean t.now) → elim result [ Some b ↦ Inverts (trinomial_extension S.sys).ops (quintuple S.mean a.now) (quintuple S.mean b) | None ↦ NoInverse (trinomial_extension S.sys).ops (quintuple S.mean a.now) ] }
{
    let prod_conj = other_conjugates(a, t);
    let norm = trinomial_mul_low(a, &prod_conj);
    let scalar = norm.inverse()?;
    Some(scale(&prod_conj, &scalar))
}
