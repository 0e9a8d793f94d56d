// Systems whose elements are read from lists of numbers, and shown as such.
ghost use Rattle.std.specs.Prelude.{◌≡◌, ℕ, min, List, [], ◌∷◌, take, Ok, Err, slice_index};
ghost use Rattle.numbers.specs.Lists.{Refused};

use crate::refusal::Refusal;
use crate::system::System;

// A system that reads and shows the lists that its elements mean.
pub trait Listed: System {
    // The length of an element's list.
    fn size() -> usize
        ensures { result ≡ Self.System.sys.size };

    // The element that means this list, or the refusal of a list that is no element: `CutList` for a wrong length, then `OverLimit`.
    fn from_list(numbers: &[u64]) -> Result<Self, Refusal>
        ensures { elim result [ Ok v ↦ Self.System.sys.list (Self.System.mean v) ≡ numbers.now | Err e ↦ Refused Self.System.sys (numbers.now ∷ []) e ] };

    // The number at a place of the element's list, and zero beyond its end.
    fn number_at(&self, place: usize) -> u64
        ensures { result ≡ slice_index (Self.System.sys.list (Self.System.mean self.now)) place };
}

// A system that reads whole lists and shows the first 65,535 numbers of them, as its size may be any number.
pub trait PrefixListed: System {
    // The length of an element's list, or 65,535 where it is longer.
    fn size() -> usize
        ensures { result ≡ min Self.System.sys.size 65535 };

    // The element that means this list, or the refusal of a list that is no element: `CutList` for a wrong length, then `OverLimit`.
    fn from_list(numbers: &[u64]) -> Result<Self, Refusal>
        ensures { elim result [ Ok v ↦ Self.System.sys.list (Self.System.mean v) ≡ numbers.now | Err e ↦ Refused Self.System.sys (numbers.now ∷ []) e ] };

    // The number at one of the first 65,535 places of the element's list, and zero beyond these or its end.
    fn number_at(&self, place: usize) -> u32
        ensures { result ≡ slice_index (take 65535 (Self.System.sys.list (Self.System.mean self.now))) place };
}
