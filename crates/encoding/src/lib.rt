// Elements as lists of bytes: four bytes for each number of an element's list, least byte first, and coefficients lowest power first.
#![tactic(auto)]

pub mod base_systems;
pub mod elements;
pub mod encoded;
mod single;

ghost use Rattle.std.specs.Prelude.{◌≡◌, ℕ, suc};
ghost use Rattle.extensions.specs.Extensions.{extension, joined};
ghost use Rattle.extensions.specs.Tuples.{Tuple};
ghost use Rattle.numbers.specs.declared.refusal.Refusal.{Refusal};
ghost use Rattle.encoding.specs.Bytes.{encoding, WholeLength, RefusedBytes};

use encoded::Encoded;

#[cfg(test)]
mod tests;

// What the encodings of a system are, as theorems: the function does nothing when it runs. Encoding and then decoding gives an element back, since its encoding is not refused and
// no other element has it. An extension's encoding is those of the coefficients, joined.
pub fn laws<S: Encoded>()
    ensures accepted { (x : S.System.sys.Elem) (e : Refusal) → RefusedBytes S.System.sys (encoding S.System.sys x) e → ⊥ }
    ensures injective { (x y : S.System.sys.Elem) → encoding S.System.sys x ≡ encoding S.System.sys y → x ≡ y }
    ensures length { (x : S.System.sys.Elem) → WholeLength S.System.sys (encoding S.System.sys x) }
    ensures extensions { (d : ℕ) (times : Tuple (suc d) S.System.sys.Elem → Tuple (suc d) S.System.sys.Elem → Tuple (suc d) S.System.sys.Elem) (t : Tuple (suc d) S.System.sys.Elem) → encoding (extension d S.System.sys times) t ≡ joined (suc d) (encoding S.System.sys) t }
{}
