// The refusals: what a call answers in place of a result.
ghost use Rattle.std.specs.Prelude.{◌≡◌, Some};
ghost use Rattle.numbers.specs.Refusals.{number_of, word_of, text_of};

use std::fmt;

#[derive(Clone, Copy, PartialEq, Eq, Debug)]
pub enum Refusal {
    // the system number is none of the catalog's
    StrangeSystem,
    // a list is not exactly as long as its element needs
    CutList,
    // a coefficient or an entry is not below the limit
    OverLimit,
    // no element times the given one is one
    NoInverse,
    // the system has no conjugates
    NoConjugates,
    // the sheet has all the entries that it can hold
    FullSheet,
    // the sheet has no entry
    EmptySheet,
    // the place is not below the count
    NoSuchPlace,
}

impl Refusal {
    // The number that stands for the refusal, as host calls answer it.
    pub fn number(&self) -> u32
        ensures { result ≡ number_of self.now }
    {
        match self {
            Refusal::StrangeSystem => 1,
            Refusal::CutList => 2,
            Refusal::OverLimit => 3,
            Refusal::NoInverse => 4,
            Refusal::NoConjugates => 5,
            Refusal::FullSheet => 6,
            Refusal::EmptySheet => 7,
            Refusal::NoSuchPlace => 8,
        }
    }

    // The refusal in words.
    pub fn word(&self) -> &'static str
        ensures { result.now ≡ word_of self.now }
    {
        match self {
            Refusal::StrangeSystem => "strange system",
            Refusal::CutList => "cut list",
            Refusal::OverLimit => "over the limit",
            Refusal::NoInverse => "no inverse",
            Refusal::NoConjugates => "no conjugates",
            Refusal::FullSheet => "full sheet",
            Refusal::EmptySheet => "empty sheet",
            Refusal::NoSuchPlace => "no such place",
        }
    }
}

// The refusal as it is printed, as in `refusal 4 (no inverse)`.
impl fmt::Display for Refusal {
    ghost output = { λ e. Some (text_of e) };

    fn fmt<W: fmt::Write>(&self, f: &mut fmt::Formatter<W>) -> fmt::Result {
        let number = self.number();
        let word = self.word();
        write!(f, "refusal {number} ({word})")
    }
}
