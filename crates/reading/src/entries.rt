// The entries of a sheet, in fixed memory.
ghost use Rattle.std.specs.Prelude.{◌≡◌, ℕ, ◌+◌, ◌<◌, ◌≤◌, List, [], ◌∷◌, ◌++◌, length, Ok, Err, slice_index, slice_set};
ghost use Rattle.reading.specs.Sheet.{most};
ghost use Rattle.reading.specs.Windows.{window};

use numbers::refusal::Refusal;
use std::marker::Model;

// The most entries that a sheet holds.
pub const MOST: usize = 512;

// A ring of slots: the entries stand in them from `start` on, going round at the end. The queues of the libraries allocate, or move every entry when the
// first one goes.
#[derive(Drop)]
pub struct Entries {
    slots: [u64; MOST],
    start: usize,
    len: usize,
}

// Clauses see the list of the entries, first to last.
impl Model for Entries {
    ghost Value = { List ℕ };

    ghost view = { λ r. window r.slots r.start r.len };

    ghost invariant = { λ r. (r.start < most) × (r.len ≤ most) };
}

impl Entries {
    // No entries.
    #[tactic(auto, unfolding(crate::specs::Windows::window))]
    pub fn empty() -> Self
        ensures { result ≡ [] }
    {
        Entries {
            slots: [0; MOST],
            start: 0,
            len: 0,
        }
    }

    #[tactic(auto, using(crate::proofs::Windows::window_length))]
    pub fn len(&self) -> usize
        ensures { result ≡ length self.now }
    {
        self.len
    }

    // Puts an entry at the end, and answers the new count. Where there is no room it is refused, and nothing changes.
    #[tactic(auto, using(crate::proofs::Windows::window_length, crate::proofs::Windows::window_append))]
    pub fn push_back(&mut self, e: u64) -> Result<usize, Refusal>
        ensures { elim result [ Ok n ↦ (length self.old < most) × (self.new ≡ self.old ++ (e ∷ [])) × (n ≡ length self.old + 1) | Err q ↦ (q ≡ Refusal.FullSheet) × (most ≤ length self.old) × (self.new ≡ self.old) ] }
    {
        if self.len >= MOST {
            return Err(Refusal::FullSheet);
        }
        self.slots[(self.start + self.len) % MOST] = e;
        self.len += 1;
        Ok(self.len)
    }

    // Takes the first entry away, and answers it. Where there is none this is refused, and nothing changes.
    #[tactic(auto, using(crate::proofs::Windows::window_drop), unfolding(crate::specs::Windows::window))]
    pub fn pop_front(&mut self) -> Result<u64, Refusal>
        ensures { elim result [ Ok e ↦ self.old ≡ e ∷ self.new | Err q ↦ (q ≡ Refusal.EmptySheet) × (self.old ≡ []) × (self.new ≡ self.old) ] }
    {
        if self.len == 0 {
            return Err(Refusal::EmptySheet);
        }
        let first = self.slots[self.start];
        self.start = (self.start + 1) % MOST;
        self.len -= 1;
        Ok(first)
    }

    // Puts an entry at a place, and answers the entry that was there. A place that is not below the count is refused, and nothing changes.
    #[tactic(auto, using(crate::proofs::Windows::window_length, crate::proofs::Windows::window_at, crate::proofs::Windows::window_set))]
    pub fn replace(&mut self, place: usize, e: u64) -> Result<u64, Refusal>
        ensures { elim result [ Ok old ↦ (place < length self.old) × (old ≡ slice_index self.old place) × (self.new ≡ slice_set self.old place e) | Err q ↦ (q ≡ Refusal.NoSuchPlace) × (length self.old ≤ place) × (self.new ≡ self.old) ] }
    {
        if place >= self.len {
            return Err(Refusal::NoSuchPlace);
        }
        let slot = (self.start + place) % MOST;
        let old = self.slots[slot];
        self.slots[slot] = e;
        Ok(old)
    }
}
