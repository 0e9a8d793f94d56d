// What a call gives in a number system.
ghost use Rattle.std.specs.Prelude.{◌≡◌, MatchResult, vec_items};
ghost use Rattle.calculator.specs.Calls.{shown};
ghost use Rattle.calculator.specs.Results.{Gives, Stops, RefusedTwo};

use crate::command::Call;
use numbers::listed::PrefixListed;
use numbers::powers;
use numbers::refusal::Refusal;
use numbers::system::System;

// The elements that two lists mean. Both lengths are tested before any number is.
pub(crate) fn two<S: PrefixListed, B: PrefixListed>(
    left: &[u64],
    right: &[u64],
) -> Result<(S, B), Refusal>
    ensures { MatchResult result (λ p. (S.sys.list (S.mean p.0) ≡ left.now) × (B.sys.list (B.mean p.1) ≡ right.now)) (RefusedTwo S.sys B.sys left.now right.now) }
{
    match (S::from_list(left), B::from_list(right)) {
        (Ok(a), Ok(b)) => Ok((a, b)),
        (Err(Refusal::CutList), _) | (_, Err(Refusal::CutList)) => Err(Refusal::CutList),
        _ => Err(Refusal::OverLimit),
    }
}

// What the call gives in the system.
pub(crate) fn answer<S: PrefixListed>(call: &Call<Vec<u64>>) -> Result<S, Refusal>
    ensures { MatchResult result (λ x. Gives S.sys (shown vec_items call.now) (S.mean x)) (Stops S.sys (shown vec_items call.now)) }
{
    match call {
        Call::Sum(l, k) => {
            let (a, b) = two::<S, S>(l, k)?;
            Ok(a.add(&b))
        }
        Call::Difference(l, k) => {
            let (a, b) = two::<S, S>(l, k)?;
            Ok(a.sub(&b))
        }
        Call::Negative(l) => Ok(S::from_list(l)?.neg()),
        Call::Multiply(l, k) => {
            let (a, b) = two::<S, S>(l, k)?;
            Ok(a.mul(&b))
        }
        Call::Square(l) => Ok(S::from_list(l)?.square()),
        Call::Power(l, exponent) => Ok(powers::exp_u64(&S::from_list(l)?, *exponent)),
        Call::Entry(n) => S::entry(*n),
        Call::Inverse(l) => S::from_list(l)?.inverse().ok_or(Refusal::NoInverse),
    }
}
