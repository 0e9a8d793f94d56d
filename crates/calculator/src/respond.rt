// From a line to its answer, and from the answer to text.
ghost use Rattle.std.specs.Prelude.{◌≡◌, Some, IfOk, string_bytes, Decides};
ghost use Rattle.calculator.specs.Lines.{Answers, answer_text, Passed, noted};
ghost use Rattle.calculator.specs.Text.{listing};

use crate::command::{Fault, Halt};
use crate::evaluate::evaluate;
use crate::line::{Answer, Tally};
use crate::parse::parse;
use std::alloc::{AllocError, Global};
use std::fmt;

// Whether a line asks for nothing: it is blank, or a remark that begins with #.
pub fn passed_over(line: &str) -> bool
    ensures { Decides result (Passed line.now) }
{
    line.starts_with('#') || line.bytes().all(|b| b == b' ')
}

// The answer to a line. Of the two errors of each step one is an answer, and only want of memory is passed on.
pub fn respond(heap: Global, line: &str) -> Result<Answer, AllocError>
    ensures { IfOk result (Answers line.now) }
{
    let command = match parse(heap, line) {
        Ok(command) => command,
        Err(Fault::Unreadable(reason)) => return Ok(Answer::Unreadable(reason)),
        Err(Fault::NoMemory(error)) => return Err(error),
    };
    match evaluate(heap, &command) {
        Ok(numbers) => Ok(Answer::Element(numbers)),
        Err(Halt::Refused(refusal)) => Ok(Answer::Refused(refusal)),
        Err(Halt::NoMemory(error)) => Err(error),
    }
}

// A list of numbers, which is printed in brackets, with commas between; nothing stands in them for an empty list.
#[derive(Clone, Copy)]
struct NumberList<'a>(&'a [u64]);

impl fmt::Display for NumberList<'_> {
    ghost output = { λ l. Some (listing l.0.now) };

    fn fmt<W: fmt::Write>(&self, f: &mut fmt::Formatter<W>) -> fmt::Result {
        let Some((first, rest)) = self.0.split_first() else {
            return write!(f, "[]");
        };
        write!(f, "[{first}")?;
        for n in rest {
            write!(f, ",{n}")?;
        }
        write!(f, "]")
    }
}

// A list of numbers as it is printed.
pub fn show_list(heap: Global, numbers: &[u64]) -> Result<String, AllocError>
    ensures { IfOk result (λ s. string_bytes s ≡ listing numbers.now) }
{
    NumberList(numbers).to_string(heap)
}

impl fmt::Display for Answer {
    ghost output = { λ a. Some (answer_text a) };

    fn fmt<W: fmt::Write>(&self, f: &mut fmt::Formatter<W>) -> fmt::Result {
        match self {
            Answer::Element(numbers) => NumberList(numbers).fmt(f),
            Answer::Refused(refusal) => refusal.fmt(f),
            Answer::Unreadable(reason) => write!(f, "unreadable: {reason}"),
        }
    }
}

impl Answer {
    // The answer as it is printed.
    pub fn show(&self, heap: Global) -> Result<String, AllocError>
        ensures { IfOk result (λ s. string_bytes s ≡ answer_text self.now) }
    {
        self.to_string(heap)
    }
}

impl Tally {
    // No line yet.
    pub fn new() -> Tally
        ensures { result ≡ record { lines = 0; answers = 0; refusals = 0; unreadable = 0 } }
    {
        Tally::default()
    }

    // One line more, with its answer.
    pub fn note(&mut self, answer: &Answer)
        ensures { self.new ≡ noted self.old answer.now }
    {
        self.lines = self.lines.saturating_add(1);
        match answer {
            Answer::Element(_) => self.answers = self.answers.saturating_add(1),
            Answer::Refused(_) => self.refusals = self.refusals.saturating_add(1),
            Answer::Unreadable(_) => self.unreadable = self.unreadable.saturating_add(1),
        }
    }
}
