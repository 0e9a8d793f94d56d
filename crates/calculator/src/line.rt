// The answer to a line, and the tally of answers.
use crate::command::Reason;
use numbers::refusal::Refusal;

// What a line comes to.
#[derive(PartialEq, Eq, Debug, Drop)]
pub enum Answer {
    Element(Vec<u64>),
    Refused(Refusal),
    Unreadable(Reason),
}

// How many lines were answered, and how; each count stops at the largest number of 64 bits.
#[derive(Clone, Copy, PartialEq, Eq, Debug, Default)]
pub struct Tally {
    pub lines: u64,
    pub answers: u64,
    pub refusals: u64,
    pub unreadable: u64,
}
