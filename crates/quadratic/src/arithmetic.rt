// Arithmetic of two coefficients, with X² = w.
ghost use Rattle.std.specs.Prelude.{◌≡◌, Some, None};
ghost use Rattle.algebra.specs.Units.{Inverts, NoInverse};
ghost use Rattle.extensions.specs.Extensions.{binomial_extension};
ghost use Rattle.extensions.specs.Schoolbook.{binomial};
ghost use Rattle.quadratic.specs.Pairs.{pair, norm};

use crate::pair::Pair;
use numbers::dot_products::dot_product_2;
use numbers::system::System;

// The product of a0 + a1 X and b0 + b1 X.
pub fn quadratic_mul<S: System>(a: &Pair<S>, b: &Pair<S>, w: &S) -> Pair<S>
    ensures { pair S.mean result ≡ binomial 2 S.sys.ops (S.mean w.now) (pair S.mean a.now) (pair S.mean b.now) }
{
    let b1_w = b.c1.mul(w);
    Pair {
        c0: dot_product_2(&a.c0, &b.c0, &a.c1, &b1_w),
        c1: dot_product_2(&a.c0, &b.c1, &a.c1, &b.c0),
    }
}

// The square of a0 + a1 X.
pub fn quadratic_extension_square<S: System>(a: &Pair<S>, w: &S) -> Pair<S>
    ensures { pair S.mean result ≡ binomial 2 S.sys.ops (S.mean w.now) (pair S.mean a.now) (pair S.mean a.now) }
{
    let a1_w = a.c1.mul(w);
    let two_a1 = a.c1.add(&a.c1);
    Pair {
        c0: dot_product_2(&a.c0, &a.c0, &a.c1, &a1_w),
        c1: a.c0.mul(&two_a1),
    }
}

// The norm of a0 + a1 X, a0² − w a1².
pub fn quadratic_norm<S: System>(a: &Pair<S>, w: &S) -> S
    ensures { S.mean result ≡ norm S.sys.ops (S.mean w.now) (pair S.mean a.now) }
{
    dot_product_2(&a.c0, &a.c0, &a.c1.neg(), &w.mul(&a.c1))
}

// The inverse of a0 + a1 X: the conjugate a0 − a1 X over the norm; none exactly where no element is one.
pub fn quadratic_inv<S: System>(a: &Pair<S>, w: &S) -> Option<Pair<S>>
    ensures { elim result [ Some b ↦ Inverts (binomial_extension 1 S.sys (S.mean w.now)).ops (pair S.mean a.now) (pair S.mean b) | None ↦ NoInverse (binomial_extension 1 S.sys (S.mean w.now)).ops (pair S.mean a.now) ] }
{
    let scalar = quadratic_norm(a, w).inverse()?;
    Some(Pair {
        c0: a.c0.mul(&scalar),
        c1: a.c1.neg().mul(&scalar),
    })
}
