// Sums and products of a list of elements, and quotients.
ghost use Rattle.std.specs.Prelude.{◌≡◌, List, map, Ok, Err};
ghost use Rattle.algebra.specs.Ring.{total, product};
ghost use Rattle.algebra.specs.Units.{Inverts, NoInverse};

use crate::refusal::Refusal;
use crate::system::System;

// The sum of all elements of a list; with none it is zero.
pub fn sum<S: System>(elements: &[S]) -> S
    ensures { S.mean result ≡ total S.sys.ops (map S.mean elements.now) }
{
    elements.iter().fold(S::zero(), |all, x| all.add(x))
}

// The product of all elements of a list; with none it is one.
pub fn product<S: System>(elements: &[S]) -> S
    ensures { S.mean result ≡ product S.sys.ops (map S.mean elements.now) }
{
    elements.iter().fold(S::one(), |all, x| all.mul(x))
}

// The product of a with the inverse of b; refused exactly where b has none.
pub fn div<S: System>(a: &S, b: &S) -> Result<S, Refusal>
    ensures { elim result [ Ok q ↦ ((c : S.sys.Elem) → Inverts S.sys.ops (S.mean b.now) c → S.mean q ≡ S.sys.ops.mul (S.mean a.now) c) × (S.sys.ops.mul (S.mean q) (S.mean b.now) ≡ S.mean a.now) | Err e ↦ NoInverse S.sys.ops (S.mean b.now) × (e ≡ Refusal.NoInverse) ] }
{
    let inverse = b.inverse().ok_or(Refusal::NoInverse)?;
    Ok(a.mul(&inverse))
}
