// Powers of an element.
ghost use Rattle.std.specs.Prelude.{◌≡◌, ℕ, ◌+◌, ◌-◌, ◌^◌, ◌<◌, ◌≤◌, length, slice_index_or};
ghost use Rattle.algebra.specs.Ring.{power};

use crate::system::System;

// The product of an element with itself.
pub fn square<S: System>(a: &S) -> S
    ensures { S.mean result ≡ S.sys.ops.mul (S.mean a.now) (S.mean a.now) }
{
    a.square()
}

// The number of binary digits of n, which is 0 for 0.
pub fn bits_u64(n: u64) -> u32
    ensures few { result ≤ 64 }
    ensures above { n < 2 ^ result }
    ensures least { 0 < result → 2 ^ (result - 1) ≤ n }
{
    u64::BITS - n.leading_zeros()
}

// The product of `exponent` factors `base`, by squaring and multiplying; with no factor it is one.
pub fn exp_u64<S: System>(base: &S, exponent: u64) -> S
    ensures { S.mean result ≡ power S.sys.ops (S.mean base.now) exponent }
{
    let mut current = *base;
    let mut product = S::one();
    for j in 0..bits_u64(exponent) {
        if (exponent >> j) & 1 != 0 {
            product = product.mul(&current);
        }
        current = current.square();
    }
    product
}

// The powers of a base, from any first element on, one at each step.
#[derive(Clone, Copy)]
pub struct Powers<S> {
    base: S,
    current: S,
}

impl<S: System> Powers<S> {
    // one, base, base², ..
    pub fn new(base: S) -> Powers<S>
        ensures { (result.base ≡ base) × (S.mean result.current ≡ S.sys.ops.one) }
    {
        Powers {
            base,
            current: S::one(),
        }
    }

    // start, start × base, start × base², ..
    pub fn shifted(base: S, start: S) -> Powers<S>
        ensures { (result.base ≡ base) × (result.current ≡ start) }
    {
        Powers {
            base,
            current: start,
        }
    }

    // The current element, which is then multiplied by the base.
    pub fn next(&mut self) -> S
        ensures answer { result ≡ self.old.current }
        ensures current { S.mean self.new.current ≡ S.sys.ops.mul (S.mean self.old.current) (S.mean self.old.base) }
        ensures base { self.new.base ≡ self.old.base }
    {
        let answer = self.current;
        self.current = answer.mul(&self.base);
        answer
    }

    // Fills a list with what the next calls would answer: at place k the current element times the k-th power of the base.
    pub fn fill(&mut self, out: &mut [S])
        ensures items { (k : ℕ) (d : S) → k < length out.new → S.mean (slice_index_or out.new k d) ≡ S.sys.ops.mul (S.mean self.old.current) (power S.sys.ops (S.mean self.old.base) k) }
        ensures current { S.mean self.new.current ≡ S.sys.ops.mul (S.mean self.old.current) (power S.sys.ops (S.mean self.old.base) (length out.old)) }
        ensures base { self.new.base ≡ self.old.base }
    {
        for place in out.iter_mut() {
            *place = self.next();
        }
    }
}
