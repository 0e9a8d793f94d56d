// Elements of an extension from lists of numbers, and as such: the list is cut into equal parts for the layer below, one for each coefficient.
ghost use Rattle.std.specs.Prelude.{◌≡◌, ℕ, min, List, [], ◌∷◌, take, Ok, Err, slice_index};
ghost use Rattle.numbers.specs.Lists.{Refused};

use crate::coefficients::Coefficients;
use crate::element::Element;
use crate::extension::Extension;
use crate::rule::Rule;
use numbers::listed::PrefixListed;
use numbers::refusal::Refusal;
use numbers::system::System;

// The first so many places of a list are shown.
const SHOWN: usize = 65_535;

// The length of an element's list, which stops at 65,535.
pub fn extension_size<S: PrefixListed, E: Extension<S>>() -> usize
    ensures { result ≡ min E.sys.size 65535 }
{
    E::degree().saturating_mul(S::size()).min(SHOWN)
}

// The element that means this list, or the refusal: `CutList` for a wrong length, then `OverLimit`.
pub fn extension_from_list<S: PrefixListed, E: Extension<S>>(numbers: &[u64]) -> Result<E, Refusal>
    ensures { elim result [ Ok v ↦ E.sys.list (E.mean v) ≡ numbers.now | Err e ↦ Refused E.sys (numbers.now ∷ []) e ] }
{
    let degree = E::degree();
    if numbers.len() % degree != 0 {
        return Err(Refusal::CutList);
    }
    // not by `chunks`, which wants parts that are not empty
    let part = numbers.len() / degree;
    let mut res = E::zero();
    for k in 0..degree {
        let start = k * part;
        res.set_coefficient(k, S::from_list(&numbers[start..start + part])?);
    }
    Ok(res)
}

// The number at one of the first 65,535 places of the element's list, and zero beyond these or its end.
pub fn extension_number_at<S: PrefixListed, E: Extension<S>>(a: &E, place: usize) -> u32
    ensures { result ≡ slice_index (take 65535 (E.sys.list (E.mean a.now))) place }
{
    let part = S::size();
    let power = place / part;
    if place >= SHOWN || power >= E::degree() {
        return 0;
    }
    a.coefficient(power).number_at(place % part)
}

impl<S: PrefixListed, V: Coefficients<S>, R: Rule<V, S>> PrefixListed for Element<S, V, R> {
    fn size() -> usize {
        extension_size::<S, Element<S, V, R>>()
    }

    fn from_list(numbers: &[u64]) -> Result<Element<S, V, R>, Refusal> {
        extension_from_list::<S, Element<S, V, R>>(numbers)
    }

    fn number_at(&self, place: usize) -> u32 {
        extension_number_at::<S, Element<S, V, R>>(self, place)
    }
}
