// The calls of an open reading. Each costs a fixed number of operations of the system, but for `replace`, which works out a power by squaring.
ghost use Rattle.std.specs.Prelude.{◌≡◌, ◌+◌, length, Ok, Err, slice_index};
ghost use Rattle.reading.specs.Sheet.{changed, told, said, sum_of};
ghost use Rattle.reading.specs.Sound.{SamePoint, Accepts, Refuses, Leaves, sheet};

use super::{Figure, Reading};
use crate::calls::{Answer, Call};
use numbers::powers::exp_u64;
use numbers::refusal::Refusal;
use numbers::system::System;

impl<S: System> Reading<S> {
    // Puts an entry at the end, and answers the new count. An entry that is not below the limit is refused, and then one for which there is no room.
    pub fn append(&mut self, e: u64) -> Result<usize, Refusal>
        ensures point { SamePoint self.old self.new }
        ensures answer { elim result [ Ok n ↦ (n ≡ length (sheet self.old) + 1) × Accepts S.sys (Call.Append e) self.old self.new | Err q ↦ Refuses S.sys (Call.Append e) q self.old self.new ] }
    {
        let value = S::entry(e)?;
        let count = self.entries.push_back(e)?;
        self.sum = self.sum.add(&value.mul(&self.power));
        self.power = self.power.mul(&self.point.element);
        Ok(count)
    }

    // Takes the first entry away, and answers it. A sheet without entries is refused.
    pub fn drop(&mut self) -> Result<u64, Refusal>
        ensures point { SamePoint self.old self.new }
        ensures answer { elim result [ Ok e ↦ (e ≡ slice_index (sheet self.old) 0) × Accepts S.sys Call.Drop self.old self.new | Err q ↦ Refuses S.sys Call.Drop q self.old self.new ] }
    {
        let first = self.entries.pop_front()?;
        // never refused: each entry of a reading is below the limit
        let value = S::entry(first)?;
        let inverse = &self.point.inverse;
        self.sum = self.sum.sub(&value).mul(inverse);
        self.power = self.power.mul(inverse);
        Ok(first)
    }

    // Puts an entry at a place, and answers the entry that was there. An entry that is not below the limit is refused, and then a place that is not below
    // the count.
    pub fn replace(&mut self, place: usize, e: u64) -> Result<u64, Refusal>
        ensures point { SamePoint self.old self.new }
        ensures answer { elim result [ Ok old ↦ (old ≡ slice_index (sheet self.old) place) × Accepts S.sys (Call.Replace place e) self.old self.new | Err q ↦ Refuses S.sys (Call.Replace place e) q self.old self.new ] }
    {
        let value = S::entry(e)?;
        let old = self.entries.replace(place, e)?;
        // never refused: each entry of a reading is below the limit
        let old_value = S::entry(old)?;
        let power = exp_u64(&self.point.element, place as u64);
        self.sum = self.sum.add(&value.sub(&old_value).mul(&power));
        Ok(old)
    }

    // The count and the sum.
    #[tactic(auto, using(crate::proofs::Soundness::sound))]
    pub fn look(&self) -> (usize, S)
        ensures count { result.0 ≡ length (sheet self.now) }
        ensures sum { S.mean result.1 ≡ sum_of S.sys (S.mean self.now.point.element) (sheet self.now) }
    {
        (self.entries.len(), self.sum)
    }

    // Any of these calls, with its answer or its refusal.
    pub fn call(&mut self, call: Call) -> Result<Answer<S>, Refusal>
        ensures point { SamePoint self.old self.new }
        ensures list { sheet self.new ≡ changed S.sys (sheet self.old) call }
        ensures unchanged { Leaves result self.old self.new }
        ensures answer { said S.mean result ≡ told S.sys (S.mean self.old.point.element) (sheet self.old) call }
    {
        match call {
            Call::Append(e) => Ok(Answer::Count(self.append(e)?)),
            Call::Drop => Ok(Answer::Entry(self.drop()?)),
            Call::Replace(place, e) => Ok(Answer::Entry(self.replace(place, e)?)),
            Call::Look => {
                let (count, sum) = self.look();
                Ok(Answer::Seen(count, sum))
            }
        }
    }

    // The figure, which uses the reading up.
    pub fn close(self) -> Figure<S>
        ensures element { result.element ≡ self.point.element }
        ensures count { result.count ≡ length (sheet self) }
        ensures sum { S.mean result.sum ≡ sum_of S.sys (S.mean self.point.element) (sheet self) }
    {
        let (count, sum) = self.look();
        Figure {
            element: self.point.element,
            count,
            sum,
        }
    }
}
