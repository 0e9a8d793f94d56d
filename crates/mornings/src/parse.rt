// From a line to the item that it says.
ghost use Rattle.std.specs.Prelude.{◌≡◌, ◌<◌, ◌⊎◌, codes, map, IfOk, MatchOption, MatchResult, vec_items};
ghost use Rattle.calculator.specs.Commands.{NoListing, NotNumber};
ghost use Rattle.calculator.specs.Text.{Listing, Number, items, parts};
ghost use Rattle.mornings.specs.Lines.{After, Because, Calls, Fails, FirstBad, Headed, Hindered, IsCall, Misnumbered, NotCall, Nothing, Numbered, Pointless, Says, Unfollowed, Writes};
ghost use Rattle.mornings.specs.Names.{system_text};

use crate::items::{Fault, HandsetNumber, Item, PointSource, Reason, SystemNumber};
use calculator::text;
use reading::calls::Call;
use std::alloc::{AllocError, Global};

// The parts of a text between the separators, an ASCII character.
fn split<'a>(heap: Global, text: &'a str, separator: char) -> Result<Vec<&'a str>, AllocError>
    requires { separator < 128 }
    ensures { IfOk result (λ v. map (λ x. x.now) v.items ≡ parts separator text.now) }
{
    text.split(separator).collect(heap)
}

// The first word of a text, and what follows it, the space included.
fn head(text: &str) -> (&str, &str)
    ensures { Headed text.now result.0.now result.1.now }
{
    match text.find(' ') {
        Some(end) => (&text[..end], &text[end..]),
        None => (text, ""),
    }
}

// The text after the space.
fn argument(rest: &str) -> Option<&str>
    ensures { MatchOption result (Unfollowed rest.now) (λ t. After rest.now t.now) }
{
    rest.strip_prefix(' ')
}

// The number that a text is.
fn number(text: &str) -> Result<u64, Reason>
    ensures { MatchResult result (Number text.now) (λ why. NotNumber text.now × (why ≡ Reason.NoNumber)) }
{
    text::number(text).ok_or(Reason::NoNumber)
}

// The call that words write, of which the first is empty, since a call follows a space.
fn call(words: &[&str]) -> Result<Call, Reason>
    ensures { MatchResult result (λ c. IsCall c (map (λ x. x.now) words.now)) (NotCall (map (λ x. x.now) words.now)) }
{
    match words {
        ["", "append", entry] => Ok(Call::Append(number(entry)?)),
        ["", "drop"] => Ok(Call::Drop),
        ["", "replace", place, entry] => {
            Ok(Call::Replace(number(place)? as usize, number(entry)?))
        }
        ["", "look"] => Ok(Call::Look),
        _ => Err(Reason::NoCall),
    }
}

// The calls that texts write, one by one.
fn calls_of(heap: Global, texts: &[&str]) -> Result<Vec<Call>, Fault>
    ensures { MatchResult result (λ v. Calls (map (λ x. x.now) texts.now) (vec_items v)) (Hindered (FirstBad (map (λ x. x.now) texts.now))) }
{
    let mut found = Vec::new(heap);
    for text in texts {
        let words = split(heap, text, ' ')?;
        let call = call(&words)?;
        found.push(call)?;
    }
    Ok(found)
}

// The calls that a text writes, with commas between them and a space before each; an empty text writes none.
fn calls(heap: Global, text: &str) -> Result<Vec<Call>, Fault>
    ensures { MatchResult result (λ v. Calls (items text.now) (vec_items v)) (Hindered (FirstBad (items text.now))) }
{
    if text.is_empty() {
        return Ok(Vec::new(heap));
    }
    let texts = split(heap, text, ',')?;
    calls_of(heap, &texts)
}

// The system whose number follows the first word.
fn system(rest: &str) -> Result<SystemNumber, Reason>
    ensures { MatchResult result (λ n. After rest.now (system_text n)) (λ why. ((n : SystemNumber) → After rest.now (system_text n) → ⊥) × (why ≡ Reason.StrangeSystem)) }
{
    argument(rest).ok_or(Reason::StrangeSystem)?.parse()
}

// The list of numbers that a text is.
fn list(heap: Global, text: &str) -> Result<Vec<u64>, Fault>
    ensures { MatchResult result (λ v. Listing text.now v.items) (Hindered (λ why. NoListing text.now × (why ≡ Reason.NoPoint))) }
{
    text::list(heap, text)?.ok_or(Fault::Bad(Reason::NoPoint))
}

// Where the point comes from, as it follows the first word.
fn point(heap: Global, rest: &str) -> Result<PointSource, Fault>
    ensures { MatchResult result (λ p. Says (Item.Point p) (codes "point") rest.now) (Hindered (λ why. (Unfollowed rest.now ⊎ Pointless rest.now) × (why ≡ Reason.NoPoint))) }
{
    match argument(rest).ok_or(Fault::Bad(Reason::NoPoint))? {
        "random" => Ok(PointSource::Random),
        numbers => Ok(PointSource::Given(list(heap, numbers)?)),
    }
}

// The handset whose number follows the first word, and what follows the number.
fn handset(rest: &str) -> Result<(HandsetNumber, &str), Reason>
    ensures { MatchResult result (λ p. Numbered rest.now p.0 p.1.now) (λ why. (Unfollowed rest.now ⊎ Misnumbered rest.now) × (why ≡ Reason.StrangeHandset)) }
{
    let (name, calls) = head(argument(rest).ok_or(Reason::StrangeHandset)?);
    Ok((name.parse()?, calls))
}

// What a line says by its first word and the rest.
fn item(heap: Global, first: &str, rest: &str) -> Result<Item, Fault>
    ensures { MatchResult result (λ i. Says i first.now rest.now) (Hindered (Fails first.now rest.now)) }
{
    match first {
        "system" => Ok(Item::System(system(rest)?)),
        "point" => Ok(Item::Point(point(heap, rest)?)),
        "dock" => Ok(Item::Dock(calls(heap, rest)?)),
        "handset" => {
            let (number, calls_text) = handset(rest)?;
            Ok(Item::Handset(number, calls(heap, calls_text)?))
        }
        _ => Err(Fault::Bad(Reason::NoItem)),
    }
}

// The item that a line says, or why it says none; then no item is written so.
pub fn parse(heap: Global, line: &str) -> Result<Item, Fault>
    ensures { MatchResult result (λ i. Writes i line.now) (Hindered (λ why. Because line.now why × Nothing line.now)) }
{
    let (first, rest) = head(line);
    item(heap, first, rest)
}
