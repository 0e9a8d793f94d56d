// Products of five coefficients, with X^5 = 1 − X².
ghost use Rattle.std.specs.Prelude.{◌≡◌};
ghost use Rattle.extensions.specs.Schoolbook.{trinomial};
ghost use Rattle.quintic.specs.Quintuples.{quintuple};
ghost use Rattle.trinomial.specs.Reduce.{reduced};

use numbers::dot_products::{dot_product_2, dot_product_3, dot_product_5};
use numbers::system::System;
use quintic::quintuple::Quintuple;

// Nine coefficients, which no other function takes, reduced by X^5 = 1 − X², X^6 = X − X³, X^7 = X² − X⁴ and X^8 = X³ + X² − 1.
fn reduce<S: System>(c0: S, c1: S, c2: S, c3: S, c4: S, c5: S, c6: S, c7: S, c8: S) -> Quintuple<S>
    ensures { quintuple S.mean result ≡ reduced S.sys.ops (S.mean c0) (S.mean c1) (S.mean c2) (S.mean c3) (S.mean c4) (S.mean c5) (S.mean c6) (S.mean c7) (S.mean c8) }
{
    let c5_minus_c8 = c5.sub(&c8);
    Quintuple {
        c0: c0.add(&c5_minus_c8),
        c1: c1.add(&c6),
        c2: c2.sub(&c5_minus_c8).add(&c7),
        c3: c3.sub(&c6).add(&c8),
        c4: c4.sub(&c7),
    }
}

// The product.
pub fn trinomial_quintic_mul<S: System>(a: &Quintuple<S>, b: &Quintuple<S>) -> Quintuple<S>
    ensures { quintuple S.mean result ≡ trinomial S.sys.ops (quintuple S.mean a.now) (quintuple S.mean b.now) }
{
    let c0 = a.c0.mul(&b.c0);
    let c1 = dot_product_2(&a.c0, &b.c1, &a.c1, &b.c0);
    let c2 = dot_product_3(&a.c0, &b.c2, &a.c1, &b.c1, &a.c2, &b.c0);
    let c3 = S::dot_product_4(&a.c0, &b.c3, &a.c1, &b.c2, &a.c2, &b.c1, &a.c3, &b.c0);
    let c4 = dot_product_5(
        &a.c0, &b.c4, &a.c1, &b.c3, &a.c2, &b.c2, &a.c3, &b.c1, &a.c4, &b.c0,
    );
    let c5 = S::dot_product_4(&a.c1, &b.c4, &a.c2, &b.c3, &a.c3, &b.c2, &a.c4, &b.c1);
    let c6 = dot_product_3(&a.c2, &b.c4, &a.c3, &b.c3, &a.c4, &b.c2);
    let c7 = dot_product_2(&a.c3, &b.c4, &a.c4, &b.c3);
    let c8 = a.c4.mul(&b.c4);
    reduce(c0, c1, c2, c3, c4, c5, c6, c7, c8)
}

// The square.
pub fn quintic_square<S: System>(a: &Quintuple<S>) -> Quintuple<S>
    ensures { quintuple S.mean result ≡ trinomial S.sys.ops (quintuple S.mean a.now) (quintuple S.mean a.now) }
{
    let a0_2 = a.c0.add(&a.c0);
    let a1_2 = a.c1.add(&a.c1);
    let a2_2 = a.c2.add(&a.c2);
    let a3_2 = a.c3.add(&a.c3);
    let c0 = a.c0.square();
    let c1 = a0_2.mul(&a.c1);
    let c2 = dot_product_2(&a0_2, &a.c2, &a.c1, &a.c1);
    let c3 = dot_product_2(&a0_2, &a.c3, &a1_2, &a.c2);
    let c4 = dot_product_3(&a0_2, &a.c4, &a1_2, &a.c3, &a.c2, &a.c2);
    let c5 = dot_product_2(&a1_2, &a.c4, &a2_2, &a.c3);
    let c6 = dot_product_2(&a2_2, &a.c4, &a.c3, &a.c3);
    let c7 = a3_2.mul(&a.c4);
    let c8 = a.c4.square();
    reduce(c0, c1, c2, c3, c4, c5, c6, c7, c8)
}

// The coefficient at power 0 of the product, where no other is wanted: c0 + c5 − c8.
pub(crate) fn trinomial_mul_low<S: System>(a: &Quintuple<S>, b: &Quintuple<S>) -> S
    ensures { S.mean result ≡ (trinomial S.sys.ops (quintuple S.mean a.now) (quintuple S.mean b.now)).0 }
{
    let c5 = S::dot_product_4(&a.c1, &b.c4, &a.c2, &b.c3, &a.c3, &b.c2, &a.c4, &b.c1);
    a.c0.mul(&b.c0).add(&c5.sub(&a.c4.mul(&b.c4)))
}
