// Products of five coefficients, with X^5 = w.
ghost use Rattle.std.specs.Prelude.{◌≡◌};
ghost use Rattle.extensions.specs.Schoolbook.{binomial};
ghost use Rattle.quintic.specs.Quintuples.{quintuple};

use crate::quintuple::Quintuple;
use numbers::dot_products::{dot_product_2, dot_product_3, dot_product_5};
use numbers::system::System;

// The product.
pub fn quintic_mul<S: System>(a: &Quintuple<S>, b: &Quintuple<S>, w: &S) -> Quintuple<S>
    ensures { quintuple S.mean result ≡ binomial 5 S.sys.ops (S.mean w.now) (quintuple S.mean a.now) (quintuple S.mean b.now) }
{
    let w_coeff_0 = S::dot_product_4(&a.c1, &b.c4, &a.c2, &b.c3, &a.c3, &b.c2, &a.c4, &b.c1);
    let w_coeff_1 = dot_product_3(&a.c2, &b.c4, &a.c3, &b.c3, &a.c4, &b.c2);
    let w_coeff_2 = dot_product_2(&a.c3, &b.c4, &a.c4, &b.c3);
    let b4_w = b.c4.mul(w);
    Quintuple {
        c0: dot_product_2(&a.c0, &b.c0, &w_coeff_0, w),
        c1: dot_product_3(&a.c0, &b.c1, &a.c1, &b.c0, &w_coeff_1, w),
        c2: S::dot_product_4(&a.c0, &b.c2, &a.c1, &b.c1, &a.c2, &b.c0, &w_coeff_2, w),
        c3: dot_product_5(
            &a.c0, &b.c3, &a.c1, &b.c2, &a.c2, &b.c1, &a.c3, &b.c0, &a.c4, &b4_w,
        ),
        c4: dot_product_5(
            &a.c0, &b.c4, &a.c1, &b.c3, &a.c2, &b.c2, &a.c3, &b.c1, &a.c4, &b.c0,
        ),
    }
}

// The square.
pub fn quintic_square<S: System>(a: &Quintuple<S>, w: &S) -> Quintuple<S>
    ensures { quintuple S.mean result ≡ binomial 5 S.sys.ops (S.mean w.now) (quintuple S.mean a.now) (quintuple S.mean a.now) }
{
    let two_a0 = a.c0.add(&a.c0);
    let two_a1 = a.c1.add(&a.c1);
    let two_a2 = a.c2.add(&a.c2);
    let two_a3 = a.c3.add(&a.c3);
    let w_a3 = a.c3.mul(w);
    let w_a4 = a.c4.mul(w);
    Quintuple {
        c0: dot_product_3(&a.c0, &a.c0, &w_a4, &two_a1, &w_a3, &two_a2),
        c1: dot_product_3(&w_a3, &a.c3, &two_a0, &a.c1, &w_a4, &two_a2),
        c2: dot_product_3(&a.c1, &a.c1, &two_a0, &a.c2, &w_a4, &two_a3),
        c3: dot_product_3(&w_a4, &a.c4, &two_a0, &a.c3, &two_a1, &a.c2),
        c4: dot_product_3(&a.c2, &a.c2, &two_a0, &a.c4, &two_a1, &a.c3),
    }
}

// The coefficient at power 0 of the product, where no other is wanted.
pub(crate) fn quintic_mul_low<S: System>(a: &Quintuple<S>, b: &Quintuple<S>, w: &S) -> S
    ensures { S.mean result ≡ (binomial 5 S.sys.ops (S.mean w.now) (quintuple S.mean a.now) (quintuple S.mean b.now)).0 }
{
    let w_coeff = S::dot_product_4(&a.c1, &b.c4, &a.c2, &b.c3, &a.c3, &b.c2, &a.c4, &b.c1);
    dot_product_2(&a.c0, &b.c0, w, &w_coeff)
}
