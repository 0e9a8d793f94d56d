// The states of a reading. A point is drawn, a reading is begun from it, and closing the reading leaves its figure. Each state is moved into the next: a
// point serves one reading, and a closed reading takes no more calls.
//
// What is true of every point and of every reading stands in ghost fields. That an equation between elements has one proof follows from the laws of the
// system, which a ghost field cannot cite, so these equations are truncated; `sound` of proofs/Soundness.antt gives them back.
ghost use Rattle.std.specs.Prelude.{◌≡◌, ◌≤◌, length};
ghost use Rattle.algebra.specs.Ring.{power as to_power};
ghost use Rattle.algebra.specs.Units.{Inverts};
ghost use Rattle.reading.specs.Sheet.{most, sum_of, Below, Below_prop};

use crate::entries::Entries;
pub use crate::entries::MOST;
use numbers::system::System;

pub mod figures;
pub mod points;
pub mod steps;

// An element with its inverse.
#[derive(Drop)]
pub struct Point<S: System> {
    element: S,
    inverse: S,
    ghost inverts: { ∥ Inverts S.sys.ops (S.mean element) (S.mean inverse) ∥₁ },
}

// An open reading: the point at which its sheet is read, the entries so far with their sum there, and the element to the power of their count, by which the
// next entry is multiplied.
#[derive(Drop)]
pub struct Reading<S: System> {
    point: Point<S>,
    entries: Entries,
    sum: S,
    power: S,
    ghost fits: { length entries ≤ most },
    ghost summed: { ∥ S.mean sum ≡ sum_of S.sys (S.mean point.element) entries ∥₁ },
    ghost raised: { ∥ S.mean power ≡ to_power S.sys.ops (S.mean point.element) (length entries) ∥₁ },
    ghost below: { Below S.sys.limit entries } by { Below_prop S.sys.limit entries },
}

// What is left of a reading: the element, the count of its entries, and their sum there.
#[derive(Drop)]
pub struct Figure<S> {
    element: S,
    count: usize,
    sum: S,
}
