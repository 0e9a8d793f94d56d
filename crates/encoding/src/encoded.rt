// Systems whose elements are read from lists of bytes, and written as such.
ghost use Rattle.std.specs.Prelude.{◌≡◌, Ok, Err};
ghost use Rattle.encoding.specs.Bytes.{encoding, Narrow, WholeLength, RefusedBytes};

use numbers::refusal::Refusal;
use numbers::system::System;

// A system whose elements are encoded as bytes, four for each number of an element's list.
pub trait Encoded: System {
    // The element that these bytes encode, or the refusal of bytes that encode none: `CutList` for a wrong length, then `OverLimit`.
    fn decode(bytes: &[u8]) -> Result<Self, Refusal>
        ensures { elim result [ Ok x ↦ encoding Self.System.sys (Self.System.mean x) ≡ bytes.now | Err e ↦ RefusedBytes Self.System.sys bytes.now e ] };

    // Makes `out` the encoding, if it is exactly as long; else `out` stays as it was.
    fn encode(&self, out: &mut [u8]) -> Result<(), Refusal>
        ensures { elim result [ Ok _ ↦ out.new ≡ encoding Self.System.sys (Self.System.mean self.now) | Err e ↦ (WholeLength Self.System.sys out.old → ⊥) × (e ≡ Refusal.CutList) × (out.new ≡ out.old) ] };

    // Four bytes hold each number of each element.
    ghost narrow: { Narrow Self.System.sys };
}
