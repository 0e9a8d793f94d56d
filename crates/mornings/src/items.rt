// What a line of a morning can say, and why it may be bad.
ghost use Rattle.std.specs.Prelude.{◌≡◌, Some, alloc_error};
ghost use Rattle.mornings.specs.Names.{system_text, handset_text, system_of, NamesSystem, NamesHandset, reason_text};
ghost use Rattle.mornings.specs.declared.items.Fault.TheVariants as F;

use numbers::refusal::Refusal;
use reading::calls::Call;
use std::alloc::{AllocError, AllocFailed};
use std::error::Error;
use std::fmt;
use std::str::FromStr;

// The number of a system of the catalog.
#[derive(Clone, Copy, PartialEq, Eq, Debug)]
pub enum SystemNumber {
    One,
    Two,
    Three,
    Four,
    Five,
    Six,
    Seven,
    Eight,
    Nine,
}

// The number of a handset's place at the dock.
#[derive(Clone, Copy, PartialEq, Eq, Debug)]
pub enum HandsetNumber {
    One,
    Two,
    Three,
    Four,
    Five,
    Six,
}

// Where the point of a morning comes from.
#[derive(Drop)]
pub enum PointSource {
    // it is drawn at random
    Random,
    // it is the element of this list
    Given(Vec<u64>),
}

// What a line says.
#[derive(Drop)]
pub enum Item {
    System(SystemNumber),
    Point(PointSource),
    Dock(Vec<Call>),
    Handset(HandsetNumber, Vec<Call>),
}

// Why a line is bad.
#[derive(Clone, Copy, PartialEq, Eq, Debug)]
pub enum Reason {
    // the first word names no item
    NoItem,
    // the system's number is none of the catalog's
    StrangeSystem,
    // the point is neither `random` nor a list of numbers in brackets
    NoPoint,
    // the handset's number is none of the dock's places
    StrangeHandset,
    // one of the calls is none
    NoCall,
    // a number of one of the calls is none, or is too large
    NoNumber,
    // the item stood on a line before
    Twice,
    // an item that has to come later stood on a line before
    OutOfOrder,
    // the list of the point is no element of the system, or the element has no inverse
    Refused(Refusal),
}

// What keeps a line from being part of a morning.
#[derive(PartialEq, Eq, Debug, Drop)]
pub enum Fault {
    Bad(Reason),
    NoMemory(AllocError),
}

impl From<Reason> for Fault {
    ghost from_gives = { λ why r. r ≡ F.Bad why };

    fn from(reason: Reason) -> Fault {
        Fault::Bad(reason)
    }
}

impl<T: Drop> From<AllocFailed<T>> for Fault {
    ghost from_gives = { λ _ r. r ≡ F.NoMemory alloc_error };

    fn from(_failed: AllocFailed<T>) -> Fault {
        Fault::NoMemory(AllocError)
    }
}

impl From<AllocError> for Fault {
    ghost from_gives = { λ e r. r ≡ F.NoMemory e };

    fn from(error: AllocError) -> Fault {
        Fault::NoMemory(error)
    }
}

// The system of this number.
impl FromStr for SystemNumber {
    type Err = Reason;

    ghost from_str_gives = { NamesSystem };

    fn from_str(digit: &str) -> Result<SystemNumber, Reason> {
        match digit {
            "1" => Ok(SystemNumber::One),
            "2" => Ok(SystemNumber::Two),
            "3" => Ok(SystemNumber::Three),
            "4" => Ok(SystemNumber::Four),
            "5" => Ok(SystemNumber::Five),
            "6" => Ok(SystemNumber::Six),
            "7" => Ok(SystemNumber::Seven),
            "8" => Ok(SystemNumber::Eight),
            "9" => Ok(SystemNumber::Nine),
            _ => Err(Reason::StrangeSystem),
        }
    }
}

// The handset of this number.
impl FromStr for HandsetNumber {
    type Err = Reason;

    ghost from_str_gives = { NamesHandset };

    fn from_str(digit: &str) -> Result<HandsetNumber, Reason> {
        match digit {
            "1" => Ok(HandsetNumber::One),
            "2" => Ok(HandsetNumber::Two),
            "3" => Ok(HandsetNumber::Three),
            "4" => Ok(HandsetNumber::Four),
            "5" => Ok(HandsetNumber::Five),
            "6" => Ok(HandsetNumber::Six),
            _ => Err(Reason::StrangeHandset),
        }
    }
}

impl fmt::Display for SystemNumber {
    ghost output = { λ n. Some (system_text n) };

    fn fmt<W: fmt::Write>(&self, f: &mut fmt::Formatter<W>) -> fmt::Result {
        f.write_str(match self {
            SystemNumber::One => "1",
            SystemNumber::Two => "2",
            SystemNumber::Three => "3",
            SystemNumber::Four => "4",
            SystemNumber::Five => "5",
            SystemNumber::Six => "6",
            SystemNumber::Seven => "7",
            SystemNumber::Eight => "8",
            SystemNumber::Nine => "9",
        })
    }
}

impl fmt::Display for HandsetNumber {
    ghost output = { λ n. Some (handset_text n) };

    fn fmt<W: fmt::Write>(&self, f: &mut fmt::Formatter<W>) -> fmt::Result {
        f.write_str(match self {
            HandsetNumber::One => "1",
            HandsetNumber::Two => "2",
            HandsetNumber::Three => "3",
            HandsetNumber::Four => "4",
            HandsetNumber::Five => "5",
            HandsetNumber::Six => "6",
        })
    }
}

impl SystemNumber {
    // The limit of the system: each number of an element's list is below it.
    pub fn limit(&self) -> u32
        ensures { result ≡ (system_of self.now).limit }
    {
        match self {
            SystemNumber::One | SystemNumber::Two | SystemNumber::Three => 2130706433,
            SystemNumber::Four | SystemNumber::Five => 2147483647,
            SystemNumber::Six => 2013265921,
            SystemNumber::Seven => 2,
            SystemNumber::Eight | SystemNumber::Nine => 11,
        }
    }
}

impl fmt::Display for Reason {
    ghost output = { λ why. Some (reason_text why) };

    fn fmt<W: fmt::Write>(&self, f: &mut fmt::Formatter<W>) -> fmt::Result {
        match self {
            Reason::NoItem => f.write_str("no such item"),
            Reason::StrangeSystem => f.write_str("strange system: not a number from 1 to 9"),
            Reason::NoPoint => {
                f.write_str("the point is neither random nor a list of numbers in brackets")
            }
            Reason::StrangeHandset => f.write_str("the handset is not a number from 1 to 6"),
            Reason::NoCall => f.write_str("a call is none of append E, drop, replace I E and look"),
            Reason::NoNumber => f.write_str("a call's number is not a number of at most 64 bits"),
            Reason::Twice => f.write_str("the item stands twice"),
            Reason::OutOfOrder => f.write_str("the item is out of order"),
            Reason::Refused(refusal) => write!(f, "the point gets {refusal}"),
        }
    }
}

impl Error for Reason {}
