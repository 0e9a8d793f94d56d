// What a line can ask for.
ghost use Rattle.std.specs.Prelude.{◌≡◌};
ghost use Rattle.calculator.specs.declared.command.Fault.TheVariants as F;
ghost use Rattle.calculator.specs.declared.command.Halt.TheVariants as H;

use numbers::refusal::Refusal;
use std::alloc::AllocError;

// A base, by its modulus.
#[derive(Clone, Copy, PartialEq, Eq, Debug)]
pub enum Base {
    Two,
    Eleven,
    BabyBear,
    KoalaBear,
    Mersenne31,
}

// The name of a call in a base, which is read before its operands.
#[derive(Clone, Copy, PartialEq, Eq, Debug)]
pub enum Verb {
    Sum,
    Difference,
    Negative,
    Multiply,
    Square,
    Power,
    Entry,
    Inverse,
}

// A call in a base, with its operands; `L` is the type of a list of numbers, which is to be an element.
#[derive(Drop)]
pub enum Call<L> {
    Sum(L, L),
    Difference(L, L),
    Negative(L),
    Multiply(L, L),
    Square(L),
    Power(L, u64),
    Entry(u64),
    Inverse(L),
}

// The name of a call in a system.
#[derive(Clone, Copy, PartialEq, Eq, Debug)]
pub enum SystemVerb {
    // one that the bases have too
    Common(Verb),
    Scale,
    Frobenius,
    ConjugateInverse,
}

// A call in a system, with its operands.
#[derive(Drop)]
pub enum SystemCall<L> {
    Common(Call<L>),
    // an element of the system, and one of the layer below
    Scale(L, L),
    Frobenius(L, u64),
    ConjugateInverse(L),
}

// A call in a base, or in the system of a number, which may be strange.
#[derive(Drop)]
pub enum Command<L> {
    Base { base: Base, call: Call<L> },
    System { number: u64, call: SystemCall<L> },
}

// Why a line cannot be read.
#[derive(Clone, Copy, PartialEq, Eq, Debug)]
pub enum Reason {
    // the first word is neither `base` nor `system`
    NoPlace,
    // the second word is no base's modulus
    UnknownBase,
    // the second word, which is to number a system, is no number, or is too large
    UnknownSystem,
    // the third word names no call
    UnknownCall,
    // the call does not have this many operands
    WrongOperands,
    // an operand that is to be an element is no list of numbers in brackets
    NoElement,
    // an operand that is to be a number is none, or is too large
    NoNumber,
}

// What keeps a line from being a command: the error of `parse`.
#[derive(PartialEq, Eq, Debug, Drop)]
pub enum Fault {
    Unreadable(Reason),
    NoMemory(AllocError),
}

impl From<Reason> for Fault {
    ghost from_gives = { λ why r. r ≡ F.Unreadable why };

    fn from(reason: Reason) -> Fault {
        Fault::Unreadable(reason)
    }
}

impl From<AllocError> for Fault {
    ghost from_gives = { λ e r. r ≡ F.NoMemory e };

    fn from(error: AllocError) -> Fault {
        Fault::NoMemory(error)
    }
}

// What keeps a command from giving a result: the error of `evaluate`. `parse` refuses nothing, so the two errors are two types.
#[derive(PartialEq, Eq, Debug, Drop)]
pub enum Halt {
    Refused(Refusal),
    NoMemory(AllocError),
}

impl From<Refusal> for Halt {
    ghost from_gives = { λ e r. r ≡ H.Refused e };

    fn from(refusal: Refusal) -> Halt {
        Halt::Refused(refusal)
    }
}

impl From<AllocError> for Halt {
    ghost from_gives = { λ e r. r ≡ H.NoMemory e };

    fn from(error: AllocError) -> Halt {
        Halt::NoMemory(error)
    }
}
