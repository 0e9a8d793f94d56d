// Arithmetic of four coefficients, with X⁴ = w.
ghost use Rattle.std.specs.Prelude.{◌≡◌, Some, None};
ghost use Rattle.algebra.specs.Units.{Inverts, NoInverse};
ghost use Rattle.extensions.specs.Extensions.{binomial_extension};
ghost use Rattle.extensions.specs.Schoolbook.{binomial};
ghost use Rattle.quadratic.specs.Pairs.{pair};
ghost use Rattle.quartic.specs.Quadruples.{quadruple, quartic_norm_of};

use crate::quadruple::Quadruple;
use numbers::dot_products::{dot_product_2, dot_product_3};
use numbers::system::System;
use quadratic::arithmetic::{quadratic_inv, quadratic_mul};
use quadratic::pair::Pair;

// The product of a0 + a1 X + a2 X² + a3 X³ and b0 + b1 X + b2 X² + b3 X³.
pub fn quartic_mul<S: System>(a: &Quadruple<S>, b: &Quadruple<S>, w: &S) -> Quadruple<S>
    ensures { quadruple S.mean result ≡ binomial 4 S.sys.ops (S.mean w.now) (quadruple S.mean a.now) (quadruple S.mean b.now) }
{
    let w_coeff_0 = dot_product_3(&a.c1, &b.c3, &a.c2, &b.c2, &a.c3, &b.c1);
    let w_coeff_1 = dot_product_2(&a.c2, &b.c3, &a.c3, &b.c2);
    let b3_w = b.c3.mul(w);
    Quadruple {
        c0: dot_product_2(&a.c0, &b.c0, &w_coeff_0, w),
        c1: dot_product_3(&a.c0, &b.c1, &a.c1, &b.c0, &w_coeff_1, w),
        c2: S::dot_product_4(&a.c0, &b.c2, &a.c1, &b.c1, &a.c2, &b.c0, &a.c3, &b3_w),
        c3: S::dot_product_4(&a.c0, &b.c3, &a.c1, &b.c2, &a.c2, &b.c1, &a.c3, &b.c0),
    }
}

// The square of a0 + a1 X + a2 X² + a3 X³.
pub fn quartic_square<S: System>(a: &Quadruple<S>, w: &S) -> Quadruple<S>
    ensures { quadruple S.mean result ≡ binomial 4 S.sys.ops (S.mean w.now) (quadruple S.mean a.now) (quadruple S.mean a.now) }
{
    let two_a0 = a.c0.add(&a.c0);
    let two_a1 = a.c1.add(&a.c1);
    let two_a2 = a.c2.add(&a.c2);
    let a2_w = a.c2.mul(w);
    let a3_w = a.c3.mul(w);
    Quadruple {
        c0: dot_product_3(&a.c0, &a.c0, &a2_w, &a.c2, &two_a1, &a3_w),
        c1: dot_product_2(&two_a0, &a.c1, &two_a2, &a3_w),
        c2: dot_product_3(&a.c1, &a.c1, &a3_w, &a.c3, &two_a0, &a.c2),
        c3: dot_product_2(&two_a0, &a.c3, &two_a2, &a.c1),
    }
}

// The norm of a0 + a1 X + a2 X² + a3 X³, that is norm_0 + norm_1 X² with norm_0 = a0² + w a2² − 2 w a1 a3 and norm_1 = 2 a0 a2 − a1² − w a3².
pub fn quartic_norm<S: System>(a: &Quadruple<S>, w: &S) -> Pair<S>
    ensures { pair S.mean result ≡ quartic_norm_of S.sys.ops (S.mean w.now) (quadruple S.mean a.now) }
{
    let neg_a1 = a.c1.neg();
    let two_neg_a1 = neg_a1.add(&neg_a1);
    let two_a2 = a.c2.add(&a.c2);
    let a2_w = a.c2.mul(w);
    let a3_w = a.c3.mul(w);
    let neg_a3 = a.c3.neg();
    let norm_0 = dot_product_3(&a.c0, &a.c0, &a.c2, &a2_w, &two_neg_a1, &a3_w);
    let norm_1 = dot_product_3(&a.c0, &two_a2, &a.c1, &neg_a1, &neg_a3, &a3_w);
    Pair {
        c0: norm_0,
        c1: norm_1,
    }
}

// The inverse of a0 + a1 X + a2 X² + a3 X³: the conjugate (a0 + a2 X²) − (a1 + a3 X²) X over the norm; none exactly where no element is one.
pub fn quartic_inv<S: System>(a: &Quadruple<S>, w: &S) -> Option<Quadruple<S>>
    ensures { elim result [ Some b ↦ Inverts (binomial_extension 3 S.sys (S.mean w.now)).ops (quadruple S.mean a.now) (quadruple S.mean b) | None ↦ NoInverse (binomial_extension 3 S.sys (S.mean w.now)).ops (quadruple S.mean a.now) ] }
{
    let inv = quadratic_inv(&quartic_norm(a, w), w)?;
    let evns = Pair { c0: a.c0, c1: a.c2 };
    let odds = Pair { c0: a.c1, c1: a.c3 };
    let out_evn = quadratic_mul(&evns, &inv, w);
    let out_odd = quadratic_mul(&odds, &inv, w);
    Some(Quadruple {
        c0: out_evn.c0,
        c1: out_odd.c0.neg(),
        c2: out_evn.c1,
        c3: out_odd.c1.neg(),
    })
}
