// The field of two elements.
ghost use Rattle.std.specs.Prelude.{◌≡◌};
ghost use Rattle.bases.specs.Bits.{bits};
ghost use Rattle.bases.specs.BitsLemmas.{bits_lawful};

use numbers::listed::Listed;
use numbers::refusal::Refusal;
use numbers::system::System;

// how far lists are shown
mod prefix_list;

// An element of the field of two elements: one where it is on, else zero.
#[derive(Clone, Copy)]
pub struct Bit {
    on: bool,
}

impl Bit {
    // Whether the element is one.
    pub fn is_one(&self) -> bool
        ensures { result ≡ self.now.on }
    {
        self.same(&Self::one())
    }
}

// One where `on` holds, else zero.
impl From<bool> for Bit {
    ghost from_gives = { λ on b. b.on ≡ on };

    fn from(on: bool) -> Bit {
        Bit { on }
    }
}

impl System for Bit {
    ghost sys = { bits };

    ghost mean = { λ b. b.on };

    ghost lawful = { bits_lawful };

    fn zero() -> Bit {
        Bit { on: false }
    }

    fn one() -> Bit {
        Bit { on: true }
    }

    fn add(&self, other: &Bit) -> Bit {
        Bit {
            on: self.on ^ other.on,
        }
    }

    fn sub(&self, other: &Bit) -> Bit {
        self.add(other)
    }

    fn neg(&self) -> Bit {
        *self
    }

    fn mul(&self, other: &Bit) -> Bit {
        Bit {
            on: self.on & other.on,
        }
    }

    fn dot_product_4(
        a0: &Bit,
        b0: &Bit,
        a1: &Bit,
        b1: &Bit,
        a2: &Bit,
        b2: &Bit,
        a3: &Bit,
        b3: &Bit,
    ) -> Bit {
        Bit {
            on: (a0.on & b0.on) ^ (a1.on & b1.on) ^ (a2.on & b2.on) ^ (a3.on & b3.on),
        }
    }

    fn same(&self, other: &Bit) -> bool {
        self.on == other.on
    }

    fn entry(n: u64) -> Result<Bit, Refusal> {
        match n {
            0 => Ok(Self::zero()),
            1 => Ok(Self::one()),
            _ => Err(Refusal::OverLimit),
        }
    }

    fn inverse(&self) -> Option<Bit> {
        self.on.then_some(*self)
    }
}

// As for residues: one function for both would ask three facts of the system, to save three lines.
impl Listed for Bit {
    fn size() -> usize {
        1
    }

    fn from_list(numbers: &[u64]) -> Result<Bit, Refusal> {
        match numbers {
            [n] => Self::entry(*n),
            _ => Err(Refusal::CutList),
        }
    }

    fn number_at(&self, place: usize) -> u64 {
        u64::from(place == 0 && self.on)
    }
}
