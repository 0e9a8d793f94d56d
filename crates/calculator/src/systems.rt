// What a call gives in a system, which is an extension with conjugates or without.
ghost use Rattle.std.specs.Prelude.{suc, Some, None, vec_items};
ghost use Rattle.extensions.specs.Tuples.{each};
ghost use Rattle.calculator.specs.Calls.{system_shown};
ghost use Rattle.calculator.specs.Settings.{ruled};
ghost use Rattle.calculator.specs.Results.{Settled};
ghost use Rattle.calculator.specs.declared.command.SystemCall.TheVariants.{Scale};

use crate::calls::{answer, two};
use crate::command::SystemCall;
use extensions::below;
use extensions::coefficients::Coefficients;
use extensions::conjugates::{ConjugateRule, Conjugates, pseudo_inv};
use extensions::element::Element;
use extensions::rule::Rule;
use numbers::listed::PrefixListed;
use numbers::refusal::Refusal;

// The element of one list, each coefficient times the element below of the other.
fn scale<S: PrefixListed, V: Coefficients<S>, R: Rule<V, S>>(
    left: &[u64],
    right: &[u64],
) -> Result<Element<S, V, R>, Refusal>
    ensures { Settled (ruled V.d S.sys S.mean R.product None) (λ x. each (suc V.d) S.mean (V.tuple x.value)) (Scale left.now right.now) result }
{
    let (a, x) = two::<Element<S, V, R>, S>(left, right)?;
    Ok(below::scale(&a, &x))
}

// What the call gives in an extension with conjugates.
pub(crate) fn with_conjugates<S: PrefixListed, V: Coefficients<S>, R: ConjugateRule<V, S>>(
    call: &SystemCall<Vec<u64>>,
) -> Result<Element<S, V, R>, Refusal>
    ensures { Settled (ruled V.d S.sys S.mean R.Rule.product (Some (R.conjugate (suc V.d) S.sys.Elem S.sys.ops S.mean))) (λ x. each (suc V.d) S.mean (V.tuple x.value)) (system_shown vec_items call.now) result }
{
    match call {
        SystemCall::Common(call) => answer(call),
        SystemCall::Scale(l, k) => scale(l, k),
        SystemCall::Frobenius(l, count) => {
            Ok(Element::<S, V, R>::from_list(l)?.repeated_frobenius(*count))
        }
        SystemCall::ConjugateInverse(l) => {
            pseudo_inv(&Element::<S, V, R>::from_list(l)?).ok_or(Refusal::NoInverse)
        }
    }
}

// What the call gives in an extension without conjugates.
pub(crate) fn without_conjugates<S: PrefixListed, V: Coefficients<S>, R: Rule<V, S>>(
    call: &SystemCall<Vec<u64>>,
) -> Result<Element<S, V, R>, Refusal>
    ensures { Settled (ruled V.d S.sys S.mean R.product None) (λ x. each (suc V.d) S.mean (V.tuple x.value)) (system_shown vec_items call.now) result }
{
    match call {
        SystemCall::Common(call) => answer(call),
        SystemCall::Scale(l, k) => scale(l, k),
        SystemCall::Frobenius(l, _) | SystemCall::ConjugateInverse(l) => {
            // a list that is no element is refused for that
            Element::<S, V, R>::from_list(l)?;
            Err(Refusal::NoConjugates)
        }
    }
}
