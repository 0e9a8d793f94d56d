// From a command to what it gives.
ghost use Rattle.std.specs.Prelude.{◌≡◌, ◌≤◌, IfOk, MatchResult, vec_items};
ghost use Rattle.calculator.specs.Calls.{command_shown};
ghost use Rattle.calculator.specs.Results.{GivesList, IsRefused, Worked};

use crate::calls::answer;
use crate::command::{Base, Command, Halt};
use crate::systems::{with_conjugates, without_conjugates};
use bases::bit::Bit;
use bases::modulus::{BabyBear, Eleven, KoalaBear, Mersenne31};
use bases::residue::Residue;
use catalog::systems::{
    System1, System2, System3, System4, System5, System6, System7, System8, System9,
};
use numbers::listed::PrefixListed;
use numbers::refusal::Refusal;
use std::alloc::{AllocError, Global};

// The numbers of an element's list.
fn numbers<S: PrefixListed>(heap: Global, x: &S) -> Result<Vec<u64>, AllocError>
    requires { S.sys.size ≤ 65535 }
    ensures { IfOk result (λ v. v.items ≡ S.sys.list (S.mean x.now)) }
{
    (0..S::size())
        .map(|i| u64::from(x.number_at(i)))
        .collect(heap)
}

// The list of an element, if there is one.
fn listed<S: PrefixListed>(heap: Global, found: Result<S, Refusal>) -> Result<Vec<u64>, Halt>
    requires { S.sys.size ≤ 65535 }
    ensures { MatchResult found (λ x. Worked vec_items (λ l. l ≡ S.sys.list (S.mean x)) (λ _. ⊥) result) (λ e. result ≡ Err (Halt.Refused e)) }
{
    Ok(numbers(heap, &found?)?)
}

// The list of what a command gives, or why it gives none.
pub fn evaluate(heap: Global, command: &Command<Vec<u64>>) -> Result<Vec<u64>, Halt>
    ensures { Worked vec_items (GivesList (command_shown vec_items command.now)) (IsRefused (command_shown vec_items command.now)) result }
{
    match command {
        Command::Base { base, call } => match base {
            Base::Two => listed::<Bit>(heap, answer(call)),
            Base::Eleven => listed::<Residue<Eleven>>(heap, answer(call)),
            Base::BabyBear => listed::<Residue<BabyBear>>(heap, answer(call)),
            Base::KoalaBear => listed::<Residue<KoalaBear>>(heap, answer(call)),
            Base::Mersenne31 => listed::<Residue<Mersenne31>>(heap, answer(call)),
        },
        Command::System { number, call } => match number {
            1 => listed::<System1>(heap, with_conjugates(call)),
            2 => listed::<System2>(heap, with_conjugates(call)),
            3 => listed::<System3>(heap, with_conjugates(call)),
            4 => listed::<System4>(heap, with_conjugates(call)),
            5 => listed::<System5>(heap, with_conjugates(call)),
            6 => listed::<System6>(heap, with_conjugates(call)),
            7 => listed::<System7>(heap, with_conjugates(call)),
            8 => listed::<System8>(heap, with_conjugates(call)),
            9 => listed::<System9>(heap, without_conjugates(call)),
            _ => Err(Halt::Refused(Refusal::StrangeSystem)),
        },
    }
}
