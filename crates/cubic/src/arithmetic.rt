// Arithmetic of three coefficients, with X³ = w.
ghost use Rattle.std.specs.Prelude.{◌≡◌, Some, None};
ghost use Rattle.algebra.specs.Units.{Inverts, NoInverse};
ghost use Rattle.extensions.specs.Extensions.{binomial_extension};
ghost use Rattle.extensions.specs.Schoolbook.{binomial};
ghost use Rattle.cubic.specs.Triples.{triple, norm};

use crate::triple::Triple;
use numbers::system::System;

// The product of a0 + a1 X + a2 X² and b0 + b1 X + b2 X², by Karatsuba's method.
pub fn cubic_mul<S: System>(a: &Triple<S>, b: &Triple<S>, w: &S) -> Triple<S>
    ensures { triple S.mean result ≡ binomial 3 S.sys.ops (S.mean w.now) (triple S.mean a.now) (triple S.mean b.now) }
{
    let a0_b0 = a.c0.mul(&b.c0);
    let a1_b1 = a.c1.mul(&b.c1);
    let a2_b2 = a.c2.mul(&b.c2);
    Triple {
        c0: a0_b0.add(
            &a.c1
                .add(&a.c2)
                .mul(&b.c1.add(&b.c2))
                .sub(&a1_b1)
                .sub(&a2_b2)
                .mul(w),
        ),
        c1: a
            .c0
            .add(&a.c1)
            .mul(&b.c0.add(&b.c1))
            .sub(&a0_b0)
            .sub(&a1_b1)
            .add(&a2_b2.mul(w)),
        c2: a
            .c0
            .add(&a.c2)
            .mul(&b.c0.add(&b.c2))
            .sub(&a0_b0)
            .sub(&a2_b2)
            .add(&a1_b1),
    }
}

// The square of a0 + a1 X + a2 X².
pub fn cubic_square<S: System>(a: &Triple<S>, w: &S) -> Triple<S>
    ensures { triple S.mean result ≡ binomial 3 S.sys.ops (S.mean w.now) (triple S.mean a.now) (triple S.mean a.now) }
{
    let w_a2 = a.c2.mul(w);
    let a1_w_a2 = a.c1.mul(&w_a2);
    let a0_a1 = a.c0.mul(&a.c1);
    let a0_a2 = a.c0.mul(&a.c2);
    Triple {
        c0: a.c0.square().add(&a1_w_a2.add(&a1_w_a2)),
        c1: w_a2.mul(&a.c2).add(&a0_a1.add(&a0_a1)),
        c2: a.c1.square().add(&a0_a2.add(&a0_a2)),
    }
}

// The norm of a0 + a1 X + a2 X², a0³ + w a1³ + w² a2³ − 3 w a0 a1 a2.
pub fn cubic_norm<S: System>(a: &Triple<S>, w: &S) -> S
    ensures { S.mean result ≡ norm S.sys.ops (S.mean w.now) (triple S.mean a.now) }
{
    let a0_square = a.c0.square();
    let a1_square = a.c1.square();
    let a2_w = w.mul(&a.c2);
    let a0_a1 = a.c0.mul(&a.c1);
    let one = S::one();
    let three = one.add(&one.add(&one));
    a0_square
        .mul(&a.c0)
        .add(&w.mul(&a.c1).mul(&a1_square))
        .add(&a2_w.square().mul(&a.c2))
        .sub(&three.mul(&a2_w).mul(&a0_a1))
}

// The inverse of a0 + a1 X + a2 X²: the adjugate (a0² − w a1 a2) + (w a2² − a0 a1) X + (a1² − a0 a2) X² over the norm;
// none exactly where no element is one.
pub fn cubic_inv<S: System>(a: &Triple<S>, w: &S) -> Option<Triple<S>>
    ensures { elim result [ Some b ↦ Inverts (binomial_extension 2 S.sys (S.mean w.now)).ops (triple S.mean a.now) (triple S.mean b) | None ↦ NoInverse (binomial_extension 2 S.sys (S.mean w.now)).ops (triple S.mean a.now) ] }
{
    let scalar = cubic_norm(a, w).inverse()?;
    let a0_square = a.c0.square();
    let a1_square = a.c1.square();
    let a2_w = w.mul(&a.c2);
    let a0_a1 = a.c0.mul(&a.c1);
    Some(Triple {
        c0: scalar.mul(&a0_square.sub(&a.c1.mul(&a2_w))),
        c1: scalar.mul(&a2_w.mul(&a.c2).sub(&a0_a1)),
        c2: scalar.mul(&a1_square.sub(&a.c0.mul(&a.c2))),
    })
}
