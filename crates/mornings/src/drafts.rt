// The morning that the lines of an input make, item by item.
ghost use Rattle.std.specs.Prelude.{◌≡◌, ◌↔◌, Any, Some, IsTrue, MatchResult};
ghost use Rattle.mornings.specs.Drafts.{Bars, IsEmpty, Lacks, Makes, Misfits, Fits, Passed, Places, Reads, Same, Spoils, Stands, missing_text};
ghost use Rattle.mornings.specs.Lines.{Hindered};

use crate::items::{Fault, HandsetNumber, Item, PointSource, Reason, SystemNumber};
use crate::parse::parse;
use crate::points;
use calculator::respond::passed_over;
use reading::calls::Call;
use std::alloc::Global;
use std::error::Error;
use std::fmt;

// A handset's number with its calls.
#[derive(Drop)]
pub struct Handset {
    pub number: HandsetNumber,
    pub calls: Vec<Call>,
}

// What is known of a morning so far.
#[derive(Drop)]
pub struct Draft {
    system: Option<SystemNumber>,
    point: Option<PointSource>,
    dock: Option<Vec<Call>>,
    handsets: Vec<Handset>,
}

// A morning: a system, a point, the calls of the dock, and those of one to six handsets.
#[derive(Drop)]
pub struct Morning {
    pub system: SystemNumber,
    pub point: PointSource,
    pub dock: Vec<Call>,
    pub handsets: Vec<Handset>,
}

// What a morning still lacks when its lines are at an end.
#[derive(Clone, Copy, PartialEq, Eq, Debug)]
pub enum Missing {
    System,
    Point,
    Dock,
    Handset,
}

impl fmt::Display for Missing {
    ghost output = { λ what. Some (missing_text what) };

    fn fmt<W: fmt::Write>(&self, f: &mut fmt::Formatter<W>) -> fmt::Result {
        f.write_str(match self {
            Missing::System => "there is no system",
            Missing::Point => "there is no point",
            Missing::Dock => "there is no dock",
            Missing::Handset => "there is no handset",
        })
    }
}

impl Error for Missing {}

impl Draft {
    // Nothing is known yet.
    pub fn new(heap: Global) -> Draft
        ensures { IsEmpty result }
    {
        Draft {
            system: None,
            point: None,
            dock: None,
            handsets: Vec::new(heap),
        }
    }

    // Whether the handset of this number is there.
    fn has_handset(&self, number: HandsetNumber) -> bool
        ensures { IsTrue result ↔ Any (λ h. h.number ≡ number) self.now.handsets.items }
    {
        self.handsets.iter().any(|h| h.number == number)
    }

    // Whether such an item is there already; of the handsets, the one of this number.
    fn stands(&self, item: &Item) -> bool
        ensures { IsTrue result ↔ Stands item.now self.now }
    {
        match item {
            Item::System(_) => self.system.is_some(),
            Item::Point(_) => self.point.is_some(),
            Item::Dock(_) => self.dock.is_some(),
            Item::Handset(number, _) => self.has_handset(*number),
        }
    }

    // Whether an item that has to come later is there already.
    fn has_passed(&self, item: &Item) -> bool
        ensures { IsTrue result ↔ Passed item.now self.now }
    {
        let has_handsets = !self.handsets.is_empty();
        match item {
            Item::System(_) => self.point.is_some() || self.dock.is_some() || has_handsets,
            Item::Point(_) => self.dock.is_some() || has_handsets,
            Item::Dock(_) => has_handsets,
            Item::Handset(..) => false,
        }
    }

    // Refuses a point that is none of the system, as far as both are known.
    fn check(&self, point: &PointSource) -> Result<(), Reason>
        ensures { MatchResult result (λ _. Fits self.now.system point.now) (Misfits self.now.system (Item.Point point.now)) }
    {
        match (self.system, point) {
            (Some(system), PointSource::Given(numbers)) => {
                points::check(system, numbers).map_err(Reason::Refused)
            }
            _ => Ok(()),
        }
    }

    // Takes one more item. An item that stands already is bad, then one that is out of order, and then a point that the system refuses; then nothing changes.
    pub fn place(&mut self, item: Item) -> Result<(), Fault>
        ensures { MatchResult result (λ _. Places item self.old self.new) (λ fault. Same self.old self.new × Hindered (Bars self.old item) fault) }
    {
        if self.stands(&item) {
            return Err(Fault::Bad(Reason::Twice));
        }
        if self.has_passed(&item) {
            return Err(Fault::Bad(Reason::OutOfOrder));
        }
        match item {
            Item::System(system) => self.system = Some(system),
            Item::Point(point) => {
                self.check(&point)?;
                self.point = Some(point);
            }
            Item::Dock(calls) => self.dock = Some(calls),
            Item::Handset(number, calls) => self.handsets.push(Handset { number, calls })?,
        }
        Ok(())
    }

    // Takes one more line. Blank lines and remarks are passed over; a bad line changes nothing.
    pub fn read(&mut self, heap: Global, line: &str) -> Result<(), Fault>
        ensures { MatchResult result (λ _. Reads line.now self.old self.new) (λ fault. Same self.old self.new × Hindered (Spoils line.now self.old) fault) }
    {
        if passed_over(line) {
            return Ok(());
        }
        self.place(parse(heap, line)?)
    }

    // The morning, if nothing is lacking.
    pub fn finish(self) -> Result<Morning, Missing>
        ensures { MatchResult result (Makes self) (Lacks self) }
    {
        let Draft {
            system,
            point,
            dock,
            handsets,
        } = self;
        let system = system.ok_or(Missing::System)?;
        let point = point.ok_or(Missing::Point)?;
        let dock = dock.ok_or(Missing::Dock)?;
        if handsets.is_empty() {
            return Err(Missing::Handset);
        }
        Ok(Morning {
            system,
            point,
            dock,
            handsets,
        })
    }
}
