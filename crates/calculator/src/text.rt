// Numbers and lists of numbers in a text.
ghost use Rattle.std.specs.Prelude.{◌≡◌, ◌<◌, map, IfOk, vec_items};
ghost use Rattle.calculator.specs.Text.{Found, parts, Number, Numbers, Bracketed, Listing};

use std::alloc::{AllocError, Global};

// The parts of a text between the separators, an ASCII character.
pub(crate) fn split<'a>(
    heap: Global,
    text: &'a str,
    separator: char,
) -> Result<Vec<&'a str>, AllocError>
    requires { separator < 128 }
    ensures { IfOk result (λ v. map (λ x. x.now) v.items ≡ parts separator text.now) }
{
    text.split(separator).collect(heap)
}

// The number that a text is, in decimal digits; none if it is no such text. Not every text that `u64` reads is one: twenty digits at most, and no sign.
pub fn number(text: &str) -> Option<u64>
    ensures { Found (λ n. n) (Number text.now) result }
{
    if text.len() > 20 || text.starts_with('+') {
        return None;
    }
    text.parse().ok()
}

// What stands between the brackets.
fn inside(text: &str) -> Option<&str>
    ensures { Found (λ x. x.now) (Bracketed text.now) result }
{
    text.strip_prefix('[')?.strip_suffix(']')
}

// The numbers that texts are, one by one; none if one of them is no number. By a loop, since of a `collect` into an `Option` nothing is promised of the value.
fn numbers(heap: Global, texts: &[&str]) -> Result<Option<Vec<u64>>, AllocError>
    ensures { IfOk result (Found vec_items (Numbers (map (λ x. x.now) texts.now))) }
{
    let mut found = Vec::new(heap);
    for text in texts {
        let Some(n) = number(text) else {
            return Ok(None);
        };
        found.push(n)?;
    }
    Ok(Some(found))
}

// The list of numbers that a text is, in brackets and with commas between; none if it is no such text, for which each caller has a reason of its own.
pub fn list(heap: Global, text: &str) -> Result<Option<Vec<u64>>, AllocError>
    ensures { IfOk result (Found vec_items (Listing text.now)) }
{
    let Some(inner) = inside(text) else {
        return Ok(None);
    };
    if inner.is_empty() {
        return Ok(Some(Vec::new(heap)));
    }
    let texts = split(heap, inner, ',')?;
    numbers(heap, &texts)
}
