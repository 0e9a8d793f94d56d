// The interface of number systems.
ghost use Rattle.std.specs.Prelude.{◌≡◌, ℕ, ◌<◌, ◌≤◌, T, List, [], ◌∷◌, Some, None, Ok, Err};
ghost use Rattle.algebra.specs.Ring.{Ops, sub, multiple, dot};
ghost use Rattle.algebra.specs.Units.{Inverts, NoInverse};
ghost use Rattle.numbers.specs.Systems.{Sys, Lawful};

use crate::refusal::Refusal;

// A type whose values mean elements of the number system `sys`, each the element `mean` of it. Two values may mean one element.
pub trait System: Copy {
    ghost sys: { Sys };

    ghost mean: { Self → sys.Elem };

    fn zero() -> Self
        ensures { mean result ≡ sys.ops.zero };

    fn one() -> Self
        ensures { mean result ≡ sys.ops.one };

    fn add(&self, other: &Self) -> Self
        ensures { mean result ≡ sys.ops.add (mean self.now) (mean other.now) };

    // The sum with the negative.
    fn sub(&self, other: &Self) -> Self
        ensures { mean result ≡ sub sys.ops (mean self.now) (mean other.now) };

    fn neg(&self) -> Self
        ensures { mean result ≡ sys.ops.neg (mean self.now) };

    fn mul(&self, other: &Self) -> Self
        ensures { mean result ≡ sys.ops.mul (mean self.now) (mean other.now) };

    fn square(&self) -> Self
        ensures { mean result ≡ sys.ops.mul (mean self.now) (mean self.now) }
    {
        self.mul(self)
    }

    // The sum of four products, a0 × b0 + a1 × b1 + a2 × b2 + a3 × b3.
    fn dot_product_4(
        a0: &Self,
        b0: &Self,
        a1: &Self,
        b1: &Self,
        a2: &Self,
        b2: &Self,
        a3: &Self,
        b3: &Self,
    ) -> Self
        ensures { mean result ≡ dot sys.ops (mean a0.now ∷ mean a1.now ∷ mean a2.now ∷ mean a3.now ∷ []) (mean b0.now ∷ mean b1.now ∷ mean b2.now ∷ mean b3.now ∷ []) };

    // Whether both mean the same element.
    fn same(&self, other: &Self) -> bool
        ensures equal { T result → mean self.now ≡ mean other.now }
        ensures different { mean self.now ≡ mean other.now → T result };

    // n times one, for n below the limit; from the limit on it is refused.
    fn entry(n: u64) -> Result<Self, Refusal>
        ensures { elim result [ Ok v ↦ (n < sys.limit) × (mean v ≡ multiple sys.ops n) | Err e ↦ (sys.limit ≤ n) × (e ≡ Refusal.OverLimit) ] };

    // The element that times this one is one; none exactly where no element is.
    fn inverse(&self) -> Option<Self>
        ensures { elim result [ Some b ↦ Inverts sys.ops (mean self.now) (mean b) | None ↦ NoInverse sys.ops (mean self.now) ] };

    ghost lawful: { Lawful sys };
}
