// Arithmetic of eight coefficients, with X⁸ = w. The coefficients of a product are eight formulas, with the names of the Rust.
ghost use Rattle.std.specs.Prelude.{◌≡◌, Some, None};
ghost use Rattle.algebra.specs.Units.{Inverts, NoInverse};
ghost use Rattle.extensions.specs.Extensions.{binomial_extension};
ghost use Rattle.extensions.specs.Schoolbook.{binomial};
ghost use Rattle.quartic.specs.Quadruples.{quadruple};
ghost use Rattle.octic.specs.Octuples.{octuple, split, octic_norm_of};

use crate::octuple::Octuple;
use numbers::dot_products::{
    dot_product_2, dot_product_3, dot_product_5, dot_product_6, dot_product_7, dot_product_8,
};
use numbers::system::System;
use quartic::arithmetic::{quartic_inv, quartic_mul, quartic_square};
use quartic::quadruple::Quadruple;

// The constant coefficient of a product, a0 b0 + w (a1 b7 + .. + a7 b1).
fn compute_coefficient_0<S: System>(a: &Octuple<S>, b: &Octuple<S>, w: &S) -> S
    ensures { S.mean result ≡ (binomial 8 S.sys.ops (S.mean w.now) (octuple S.mean a.now) (octuple S.mean b.now)).0 }
{
    let w_coeff = dot_product_7(
        &a.c1, &b.c7, &a.c2, &b.c6, &a.c3, &b.c5, &a.c4, &b.c4, &a.c5, &b.c3, &a.c6, &b.c2, &a.c7,
        &b.c1,
    );
    dot_product_2(&a.c0, &b.c0, &w_coeff, w)
}

// The linear coefficient of a product, a0 b1 + a1 b0 + w (a2 b7 + .. + a7 b2).
fn compute_coefficient_1<S: System>(a: &Octuple<S>, b: &Octuple<S>, w: &S) -> S
    ensures { S.mean result ≡ (binomial 8 S.sys.ops (S.mean w.now) (octuple S.mean a.now) (octuple S.mean b.now)).1.0 }
{
    let w_coeff = dot_product_6(
        &a.c2, &b.c7, &a.c3, &b.c6, &a.c4, &b.c5, &a.c5, &b.c4, &a.c6, &b.c3, &a.c7, &b.c2,
    );
    dot_product_3(&a.c0, &b.c1, &a.c1, &b.c0, &w_coeff, w)
}

// The square coefficient of a product, a0 b2 + .. + a2 b0 + w (a3 b7 + .. + a7 b3).
fn compute_coefficient_2<S: System>(a: &Octuple<S>, b: &Octuple<S>, w: &S) -> S
    ensures { S.mean result ≡ (binomial 8 S.sys.ops (S.mean w.now) (octuple S.mean a.now) (octuple S.mean b.now)).1.1.0 }
{
    let w_coeff = dot_product_5(
        &a.c3, &b.c7, &a.c4, &b.c6, &a.c5, &b.c5, &a.c6, &b.c4, &a.c7, &b.c3,
    );
    S::dot_product_4(&a.c0, &b.c2, &a.c1, &b.c1, &a.c2, &b.c0, &w_coeff, w)
}

// The cube coefficient of a product, a0 b3 + .. + a3 b0 + w (a4 b7 + .. + a7 b4).
fn compute_coefficient_3<S: System>(a: &Octuple<S>, b: &Octuple<S>, w: &S) -> S
    ensures { S.mean result ≡ (binomial 8 S.sys.ops (S.mean w.now) (octuple S.mean a.now) (octuple S.mean b.now)).1.1.1.0 }
{
    let w_coeff = S::dot_product_4(&a.c4, &b.c7, &a.c5, &b.c6, &a.c6, &b.c5, &a.c7, &b.c4);
    dot_product_5(
        &a.c0, &b.c3, &a.c1, &b.c2, &a.c2, &b.c1, &a.c3, &b.c0, &w_coeff, w,
    )
}

// The quartic coefficient of a product, a0 b4 + .. + a4 b0 + w (a5 b7 + .. + a7 b5).
fn compute_coefficient_4<S: System>(a: &Octuple<S>, b: &Octuple<S>, w: &S) -> S
    ensures { S.mean result ≡ (binomial 8 S.sys.ops (S.mean w.now) (octuple S.mean a.now) (octuple S.mean b.now)).1.1.1.1.0 }
{
    let w_coeff = dot_product_3(&a.c5, &b.c7, &a.c6, &b.c6, &a.c7, &b.c5);
    dot_product_6(
        &a.c0, &b.c4, &a.c1, &b.c3, &a.c2, &b.c2, &a.c3, &b.c1, &a.c4, &b.c0, &w_coeff, w,
    )
}

// The quintic coefficient of a product, a0 b5 + .. + a5 b0 + w (a6 b7 + a7 b6).
fn compute_coefficient_5<S: System>(a: &Octuple<S>, b: &Octuple<S>, w: &S) -> S
    ensures { S.mean result ≡ (binomial 8 S.sys.ops (S.mean w.now) (octuple S.mean a.now) (octuple S.mean b.now)).1.1.1.1.1.0 }
{
    let w_coeff = dot_product_2(&a.c6, &b.c7, &a.c7, &b.c6);
    dot_product_7(
        &a.c0, &b.c5, &a.c1, &b.c4, &a.c2, &b.c3, &a.c3, &b.c2, &a.c4, &b.c1, &a.c5, &b.c0,
        &w_coeff, w,
    )
}

// The sextic coefficient of a product, a0 b6 + .. + a6 b0 + w a7 b7.
fn compute_coefficient_6<S: System>(a: &Octuple<S>, b: &Octuple<S>, w: &S) -> S
    ensures { S.mean result ≡ (binomial 8 S.sys.ops (S.mean w.now) (octuple S.mean a.now) (octuple S.mean b.now)).1.1.1.1.1.1.0 }
{
    let b7_w = w.mul(&b.c7);
    dot_product_8(
        &a.c0, &b.c6, &a.c1, &b.c5, &a.c2, &b.c4, &a.c3, &b.c3, &a.c4, &b.c2, &a.c5, &b.c1, &a.c6,
        &b.c0, &a.c7, &b7_w,
    )
}

// The last coefficient of a product, a0 b7 + .. + a7 b0.
fn compute_coefficient_7<S: System>(a: &Octuple<S>, b: &Octuple<S>, w: &S) -> S
    ensures { S.mean result ≡ (binomial 8 S.sys.ops (S.mean w.now) (octuple S.mean a.now) (octuple S.mean b.now)).1.1.1.1.1.1.1.0 }
{
    dot_product_8(
        &a.c0, &b.c7, &a.c1, &b.c6, &a.c2, &b.c5, &a.c3, &b.c4, &a.c4, &b.c3, &a.c5, &b.c2, &a.c6,
        &b.c1, &a.c7, &b.c0,
    )
}

// The product of a0 + a1 X + .. + a7 X⁷ and b0 + b1 X + .. + b7 X⁷.
pub fn octic_mul<S: System>(a: &Octuple<S>, b: &Octuple<S>, w: &S) -> Octuple<S>
    ensures { octuple S.mean result ≡ binomial 8 S.sys.ops (S.mean w.now) (octuple S.mean a.now) (octuple S.mean b.now) }
{
    Octuple {
        c0: compute_coefficient_0(a, b, w),
        c1: compute_coefficient_1(a, b, w),
        c2: compute_coefficient_2(a, b, w),
        c3: compute_coefficient_3(a, b, w),
        c4: compute_coefficient_4(a, b, w),
        c5: compute_coefficient_5(a, b, w),
        c6: compute_coefficient_6(a, b, w),
        c7: compute_coefficient_7(a, b, w),
    }
}

// The square of a0 + a1 X + .. + a7 X⁷.
pub fn octic_square<S: System>(a: &Octuple<S>, w: &S) -> Octuple<S>
    ensures { octuple S.mean result ≡ binomial 8 S.sys.ops (S.mean w.now) (octuple S.mean a.now) (octuple S.mean a.now) }
{
    let a0_2 = a.c0.add(&a.c0);
    let a1_2 = a.c1.add(&a.c1);
    let a2_2 = a.c2.add(&a.c2);
    let a3_2 = a.c3.add(&a.c3);
    let w_a4 = a.c4.mul(w);
    let w_a5 = a.c5.mul(w);
    let w_a6 = a.c6.mul(w);
    let w_a7 = a.c7.mul(w);
    let w_a5_2 = w_a5.add(&w_a5);
    let w_a6_2 = w_a6.add(&w_a6);
    let w_a7_2 = w_a7.add(&w_a7);
    Octuple {
        c0: dot_product_5(
            &a.c0, &a.c0, &a.c1, &w_a7_2, &a.c2, &w_a6_2, &a.c3, &w_a5_2, &a.c4, &w_a4,
        ),
        c1: S::dot_product_4(&a0_2, &a.c1, &a.c2, &w_a7_2, &a.c3, &w_a6_2, &a.c4, &w_a5_2),
        c2: dot_product_5(
            &a0_2, &a.c2, &a.c1, &a.c1, &a.c3, &w_a7_2, &a.c4, &w_a6_2, &a.c5, &w_a5,
        ),
        c3: S::dot_product_4(&a0_2, &a.c3, &a1_2, &a.c2, &a.c4, &w_a7_2, &a.c5, &w_a6_2),
        c4: dot_product_5(
            &a0_2, &a.c4, &a1_2, &a.c3, &a.c2, &a.c2, &a.c5, &w_a7_2, &a.c6, &w_a6,
        ),
        c5: S::dot_product_4(&a0_2, &a.c5, &a1_2, &a.c4, &a2_2, &a.c3, &a.c6, &w_a7_2),
        c6: dot_product_5(
            &a0_2, &a.c6, &a1_2, &a.c5, &a2_2, &a.c4, &a.c3, &a.c3, &a.c7, &w_a7,
        ),
        c7: S::dot_product_4(&a0_2, &a.c7, &a1_2, &a.c6, &a2_2, &a.c5, &a3_2, &a.c4),
    }
}

// The coefficients at even powers, and those at odd powers.
fn halves<S: System>(a: &Octuple<S>) -> (Quadruple<S>, Quadruple<S>)
    ensures evens { quadruple S.mean result.0 ≡ (split (octuple S.mean a.now)).0 }
    ensures odds { quadruple S.mean result.1 ≡ (split (octuple S.mean a.now)).1.0 }
{
    let evns = Quadruple {
        c0: a.c0,
        c1: a.c2,
        c2: a.c4,
        c3: a.c6,
    };
    let odds = Quadruple {
        c0: a.c1,
        c1: a.c3,
        c2: a.c5,
        c3: a.c7,
    };
    (evns, odds)
}

// The norm of a0 + a1 X + .. + a7 X⁷: evens² − X² odds², where evens = a0 + a2 X² + a4 X⁴ + a6 X⁶ and odds = a1 + a3 X² + a5 X⁴ + a7 X⁶, by its
// coefficients of X⁰, X², X⁴ and X⁶. The coefficients of odds² go round by one place, and the last comes first, times w.
pub fn octic_norm<S: System>(a: &Octuple<S>, w: &S) -> Quadruple<S>
    ensures { quadruple S.mean result ≡ octic_norm_of S.sys.ops (S.mean w.now) (octuple S.mean a.now) }
{
    let (evns, odds) = halves(a);
    let evns_sq = quartic_square(&evns, w);
    let odds_sq = quartic_square(&odds, w);
    let w_odds = w.mul(&odds_sq.c3);
    Quadruple {
        c0: evns_sq.c0.sub(&w_odds),
        c1: evns_sq.c1.sub(&odds_sq.c0),
        c2: evns_sq.c2.sub(&odds_sq.c1),
        c3: evns_sq.c3.sub(&odds_sq.c2),
    }
}

// The inverse of a0 + a1 X + .. + a7 X⁷: the conjugate evens − odds X over the norm; none exactly where no element is one.
pub fn octic_inv<S: System>(a: &Octuple<S>, w: &S) -> Option<Octuple<S>>
    ensures { elim result [ Some b ↦ Inverts (binomial_extension 7 S.sys (S.mean w.now)).ops (octuple S.mean a.now) (octuple S.mean b) | None ↦ NoInverse (binomial_extension 7 S.sys (S.mean w.now)).ops (octuple S.mean a.now) ] }
{
    let norm_inv = quartic_inv(&octic_norm(a, w), w)?;
    let (evns, odds) = halves(a);
    let out_evn = quartic_mul(&evns, &norm_inv, w);
    let out_odd = quartic_mul(&odds, &norm_inv, w);
    Some(Octuple {
        c0: out_evn.c0,
        c1: out_odd.c0.neg(),
        c2: out_evn.c1,
        c3: out_odd.c1.neg(),
        c4: out_evn.c2,
        c5: out_odd.c2.neg(),
        c6: out_evn.c3,
        c7: out_odd.c3.neg(),
    })
}
