// From a line to the command that it writes.
ghost use Rattle.std.specs.Prelude.{◌≡◌, ◌≢◌, ◌⊎◌, ◌∷◌, length, map, codes, Some, MatchResult, vec_items};
ghost use Rattle.calculator.specs.Text.{words, Number, Listing};
ghost use Rattle.calculator.specs.Calls.{shown, system_shown, command_shown, verb_of, operands, system_verb_of, system_operands};
ghost use Rattle.calculator.specs.Commands.{NamesBase, NamesVerb, NamesSystemVerb, Operands, SystemOperands, word, base_lines, system_lines, Writes, Fails, SystemFails, Lacks, Because, reason_text, NoListing, NotNumber, Hindered, Nothing};

use crate::command::{Base, Call, Command, Fault, Reason, SystemCall, SystemVerb, Verb};
use crate::text;
use std::alloc::Global;
use std::error::Error;
use std::fmt;
use std::str::FromStr;

// The base of this modulus.
impl FromStr for Base {
    type Err = Reason;

    ghost from_str_gives = { NamesBase };

    fn from_str(modulus: &str) -> Result<Base, Reason> {
        match modulus {
            "2" => Ok(Base::Two),
            "11" => Ok(Base::Eleven),
            "2013265921" => Ok(Base::BabyBear),
            "2130706433" => Ok(Base::KoalaBear),
            "2147483647" => Ok(Base::Mersenne31),
            _ => Err(Reason::UnknownBase),
        }
    }
}

// The call of this name.
impl FromStr for Verb {
    type Err = Reason;

    ghost from_str_gives = { NamesVerb };

    fn from_str(name: &str) -> Result<Verb, Reason> {
        match name {
            "sum" => Ok(Verb::Sum),
            "difference" => Ok(Verb::Difference),
            "negative" => Ok(Verb::Negative),
            "multiply" => Ok(Verb::Multiply),
            "square" => Ok(Verb::Square),
            "power" => Ok(Verb::Power),
            "entry" => Ok(Verb::Entry),
            "inverse" => Ok(Verb::Inverse),
            _ => Err(Reason::UnknownCall),
        }
    }
}

impl Verb {
    // How many operands the call has.
    pub fn operands(&self) -> usize
        ensures { result ≡ operands self.now }
    {
        match self {
            Verb::Sum | Verb::Difference | Verb::Multiply | Verb::Power => 2,
            Verb::Negative | Verb::Square | Verb::Entry | Verb::Inverse => 1,
        }
    }
}

// The call in a system of this name.
impl FromStr for SystemVerb {
    type Err = Reason;

    ghost from_str_gives = { NamesSystemVerb };

    fn from_str(name: &str) -> Result<SystemVerb, Reason> {
        match name {
            "scale" => Ok(SystemVerb::Scale),
            "frobenius" => Ok(SystemVerb::Frobenius),
            "conjugate_inverse" => Ok(SystemVerb::ConjugateInverse),
            _ => Ok(SystemVerb::Common(name.parse::<Verb>()?)),
        }
    }
}

impl SystemVerb {
    // How many operands the call has.
    pub fn operands(&self) -> usize
        ensures { result ≡ system_operands self.now }
    {
        match self {
            SystemVerb::Common(verb) => verb.operands(),
            SystemVerb::Scale | SystemVerb::Frobenius => 2,
            SystemVerb::ConjugateInverse => 1,
        }
    }
}

impl Reason {
    // The reason in words.
    pub fn text(&self) -> &'static str
        ensures { result.now ≡ reason_text self.now }
    {
        match self {
            Reason::NoPlace => "the line begins with neither base nor system",
            Reason::UnknownBase => "unknown base",
            Reason::UnknownSystem => "the system is not a number of at most 64 bits",
            Reason::UnknownCall => "unknown call",
            Reason::WrongOperands => "wrong number of operands",
            Reason::NoElement => "an operand is not a list of numbers in brackets",
            Reason::NoNumber => "an operand is not a number of at most 64 bits",
        }
    }
}

impl fmt::Display for Reason {
    ghost output = { λ why. Some (reason_text why) };

    fn fmt<W: fmt::Write>(&self, f: &mut fmt::Formatter<W>) -> fmt::Result {
        f.write_str(self.text())
    }
}

impl Error for Reason {}

// The list that an operand is.
fn element(heap: Global, operand: &str) -> Result<Vec<u64>, Fault>
    ensures { MatchResult result (λ v. Listing operand.now v.items) (Hindered (λ why. NoListing operand.now × (why ≡ Reason.NoElement))) }
{
    text::list(heap, operand)?.ok_or(Fault::Unreadable(Reason::NoElement))
}

// The number that an operand is.
fn number(operand: &str) -> Result<u64, Fault>
    ensures { MatchResult result (Number operand.now) (Hindered (λ why. NotNumber operand.now × (why ≡ Reason.NoNumber))) }
{
    text::number(operand).ok_or(Fault::Unreadable(Reason::NoNumber))
}

// The call with its operands.
fn call(heap: Global, verb: Verb, first: &str, second: &str) -> Result<Call<Vec<u64>>, Fault>
    ensures { MatchResult result (λ c. (verb_of (shown vec_items c) ≡ verb) × Operands (shown vec_items c) first.now second.now) (Hindered (Fails verb first.now second.now)) }
{
    match verb {
        Verb::Sum => Ok(Call::Sum(element(heap, first)?, element(heap, second)?)),
        Verb::Difference => Ok(Call::Difference(element(heap, first)?, element(heap, second)?)),
        Verb::Negative => Ok(Call::Negative(element(heap, first)?)),
        Verb::Multiply => Ok(Call::Multiply(element(heap, first)?, element(heap, second)?)),
        Verb::Square => Ok(Call::Square(element(heap, first)?)),
        Verb::Power => Ok(Call::Power(element(heap, first)?, number(second)?)),
        Verb::Entry => Ok(Call::Entry(number(first)?)),
        Verb::Inverse => Ok(Call::Inverse(element(heap, first)?)),
    }
}

// The call in a system with its operands.
fn system_call(
    heap: Global,
    verb: SystemVerb,
    first: &str,
    second: &str,
) -> Result<SystemCall<Vec<u64>>, Fault>
    ensures { MatchResult result (λ c. (system_verb_of (system_shown vec_items c) ≡ verb) × SystemOperands (system_shown vec_items c) first.now second.now) (Hindered (SystemFails verb first.now second.now)) }
{
    match verb {
        SystemVerb::Common(verb) => Ok(SystemCall::Common(call(heap, verb, first, second)?)),
        SystemVerb::Scale => Ok(SystemCall::Scale(element(heap, first)?, element(heap, second)?)),
        SystemVerb::Frobenius => Ok(SystemCall::Frobenius(element(heap, first)?, number(second)?)),
        SystemVerb::ConjugateInverse => Ok(SystemCall::ConjugateInverse(element(heap, first)?)),
    }
}

// The operands of a call that has one or two; beside a single one the second text is empty.
fn one_or_two<'a>(count: usize, operands: &[&'a str]) -> Result<(&'a str, &'a str), Reason>
    requires { (count ≡ 1) ⊎ (count ≡ 2) }
    ensures { MatchResult result (λ p. (length operands.now ≡ count) × (p.0.now ≡ word (map (λ x. x.now) operands.now) 0) × (p.1.now ≡ word (map (λ x. x.now) operands.now) 1)) (λ why. (length operands.now ≢ count) × (why ≡ Reason.WrongOperands)) }
{
    match (count, operands) {
        (1, [first]) => Ok((first, "")),
        (2, [first, second]) => Ok((first, second)),
        _ => Err(Reason::WrongOperands),
    }
}

// The command that a line of a base writes, by its words behind the first, or the first reason why they write none.
fn base_command(heap: Global, rest: &[&str]) -> Result<Command<Vec<u64>>, Fault>
    ensures { MatchResult result (λ c. Writes (command_shown vec_items c) (codes "base" ∷ map (λ x. x.now) rest.now)) (Hindered (Lacks base_lines (codes "base" ∷ map (λ x. x.now) rest.now))) }
{
    let [modulus, rest @ ..] = rest else {
        return Err(Fault::Unreadable(Reason::UnknownBase));
    };
    let base = modulus.parse::<Base>()?;
    let [name, operands @ ..] = rest else {
        return Err(Fault::Unreadable(Reason::UnknownCall));
    };
    let verb = name.parse::<Verb>()?;
    let (first, second) = one_or_two(verb.operands(), operands)?;
    let call = call(heap, verb, first, second)?;
    Ok(Command::Base { base, call })
}

// The command that a line of a system writes, likewise.
fn system_command(heap: Global, rest: &[&str]) -> Result<Command<Vec<u64>>, Fault>
    ensures { MatchResult result (λ c. Writes (command_shown vec_items c) (codes "system" ∷ map (λ x. x.now) rest.now)) (Hindered (Lacks system_lines (codes "system" ∷ map (λ x. x.now) rest.now))) }
{
    let [number, rest @ ..] = rest else {
        return Err(Fault::Unreadable(Reason::UnknownSystem));
    };
    let number = text::number(number).ok_or(Fault::Unreadable(Reason::UnknownSystem))?;
    let [name, operands @ ..] = rest else {
        return Err(Fault::Unreadable(Reason::UnknownCall));
    };
    let verb = name.parse::<SystemVerb>()?;
    let (first, second) = one_or_two(verb.operands(), operands)?;
    let call = system_call(heap, verb, first, second)?;
    Ok(Command::System { number, call })
}

// The command that words write, or the first reason why they write none.
fn command(heap: Global, all: &[&str]) -> Result<Command<Vec<u64>>, Fault>
    ensures { MatchResult result (λ c. Writes (command_shown vec_items c) (map (λ x. x.now) all.now)) (Hindered (Because (map (λ x. x.now) all.now))) }
{
    match all {
        ["base", rest @ ..] => base_command(heap, rest),
        ["system", rest @ ..] => system_command(heap, rest),
        _ => Err(Fault::Unreadable(Reason::NoPlace)),
    }
}

// The command that a line writes, or the first reason why it writes none; then no command is written so.
pub fn parse(heap: Global, line: &str) -> Result<Command<Vec<u64>>, Fault>
    ensures { MatchResult result (λ c. Writes (command_shown vec_items c) (words line.now)) (Hindered (λ why. Because (words line.now) why × Nothing (words line.now))) }
{
    let found = text::split(heap, line, ' ')?;
    command(heap, &found)
}
