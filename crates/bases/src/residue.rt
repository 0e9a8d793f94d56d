// Residues modulo m.
ghost use Rattle.std.specs.Prelude.{◌≡◌, ◌%◌, ◌^◌, ◌<◌, ◌≤◌, Some, None, ⊤};
ghost use Rattle.bases.specs.Residues.{residues, res};
ghost use Rattle.bases.specs.ResiduesLemmas.{residues_lawful};

use crate::euclid::inverse_modulo;
use crate::modulus::Modulus;
use numbers::listed::Listed;
use numbers::refusal::Refusal;
use numbers::system::System;
use std::alloc::AllocError;
use std::marker::PhantomData;

// how far lists are shown
mod prefix_list;

// A residue modulo the m of `M`. Any number below 2^31 with that remainder may hold it.
pub struct Residue<M> {
    value: u32,
    modulus: PhantomData<M>,
    ghost small: { value < 2 ^ 31 },
}

// By hand, since `Clone` cannot be derived for a type that has a parameter and a ghost field.
impl<M> Clone for Residue<M> {
    ghost is_clone = { λ x y. y ≡ x };

    ghost is_infallible = { λ _. ⊤ };

    fn clone(&self) -> Result<Residue<M>, AllocError> {
        Ok(*self)
    }
}

impl<M> Copy for Residue<M> {}

impl<M: Modulus> Residue<M> {
    // The residue that holds this value, which is to be below 2^31.
    pub fn new(value: u32) -> Option<Residue<M>>
        ensures { elim result [ Some v ↦ (value < 2 ^ 31) × (v.value ≡ value) | None ↦ 2 ^ 31 ≤ value ] }
    {
        (value < 0x8000_0000).then(|| Self::held(value))
    }

    // The residue that holds this value.
    fn held(value: u32) -> Residue<M>
        requires { value < 2 ^ 31 }
        ensures { result.value ≡ value }
    {
        Residue {
            value,
            modulus: PhantomData,
        }
    }
}

// The residue of any number, which holds its remainder.
impl<M: Modulus> From<u32> for Residue<M> {
    ghost from_gives = { λ n r. r.value ≡ n % M.MODULUS };

    fn from(n: u32) -> Residue<M> {
        Self::held(n % M::MODULUS)
    }
}

impl<M: Modulus> System for Residue<M> {
    ghost sys = { residues M.MODULUS M.bounds.low };

    ghost mean = { λ a. res M.MODULUS M.bounds.low a.value };

    ghost lawful = { residues_lawful M.MODULUS M.bounds.low };

    fn zero() -> Residue<M> {
        Self::held(0)
    }

    fn one() -> Residue<M> {
        Self::held(1)
    }

    fn add(&self, other: &Residue<M>) -> Residue<M> {
        Self::held((self.value + other.value) % M::MODULUS)
    }

    fn sub(&self, other: &Residue<M>) -> Residue<M> {
        let m = M::MODULUS;
        Self::held((self.value + (m - other.value % m)) % m)
    }

    fn neg(&self) -> Residue<M> {
        let m = M::MODULUS;
        Self::held(m - self.value % m)
    }

    fn mul(&self, other: &Residue<M>) -> Residue<M> {
        let m = u64::from(M::MODULUS);
        Self::held((u64::from(self.value) * u64::from(other.value) % m) as u32)
    }

    fn dot_product_4(
        a0: &Residue<M>,
        b0: &Residue<M>,
        a1: &Residue<M>,
        b1: &Residue<M>,
        a2: &Residue<M>,
        b2: &Residue<M>,
        a3: &Residue<M>,
        b3: &Residue<M>,
    ) -> Residue<M> {
        let m = u64::from(M::MODULUS);
        let p0 = u64::from(a0.value) * u64::from(b0.value) % m;
        let p1 = u64::from(a1.value) * u64::from(b1.value) % m;
        let p2 = u64::from(a2.value) * u64::from(b2.value) % m;
        let p3 = u64::from(a3.value) * u64::from(b3.value) % m;
        Self::held(((p0 + p1 + p2 + p3) % m) as u32)
    }

    fn same(&self, other: &Residue<M>) -> bool {
        let m = M::MODULUS;
        self.value % m == other.value % m
    }

    fn entry(n: u64) -> Result<Residue<M>, Refusal> {
        let limit = u64::from(M::MODULUS);
        (n < limit)
            .then(|| Self::held(n as u32))
            .ok_or(Refusal::OverLimit)
    }

    fn inverse(&self) -> Option<Residue<M>> {
        let t = inverse_modulo(u64::from(M::MODULUS), u64::from(self.value))?;
        Some(Self::held(t as u32))
    }
}

impl<M: Modulus> Listed for Residue<M> {
    fn size() -> usize {
        1
    }

    fn from_list(numbers: &[u64]) -> Result<Residue<M>, Refusal> {
        match numbers {
            [n] => Self::entry(*n),
            _ => Err(Refusal::CutList),
        }
    }

    fn number_at(&self, place: usize) -> u64 {
        if place == 0 {
            u64::from(self.value % M::MODULUS)
        } else {
            0
        }
    }
}
