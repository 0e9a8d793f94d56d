// Drawing a point, and beginning a reading there.
ghost use Rattle.std.specs.Prelude.{◌≡◌, [], Ok, Err};
ghost use Rattle.algebra.specs.Units.{Inverts, NoInverse};
ghost use Rattle.reading.specs.Sound.{sheet};

use super::{Point, Reading};
use crate::entries::Entries;
use numbers::refusal::Refusal;
use numbers::system::System;

// The point at an element, which is refused exactly where no element is its inverse. Nothing else makes a point.
pub fn draw<S: System>(x: S) -> Result<Point<S>, Refusal>
    ensures { elim result [ Ok p ↦ (p.element ≡ x) × Inverts S.sys.ops (S.mean x) (S.mean p.inverse) | Err q ↦ (q ≡ Refusal.NoInverse) × NoInverse S.sys.ops (S.mean x) ] }
{
    // by let .. else, which the project's rules want of this refusal
    let Some(inverse) = x.inverse() else {
        return Err(Refusal::NoInverse);
    };
    Ok(Point {
        element: x,
        inverse,
    })
}

impl<S: System> Point<S> {
    pub fn element(&self) -> S
        ensures { result ≡ self.now.element }
    {
        self.element
    }

    pub fn inverse(&self) -> S
        ensures { result ≡ self.now.inverse }
    {
        self.inverse
    }

    // An open reading without entries, which uses the point up.
    pub fn begin(self) -> Reading<S>
        ensures empty { sheet result ≡ [] }
        ensures point { (result.point.element ≡ self.element) × (result.point.inverse ≡ self.inverse) }
    {
        let sum = S::zero();
        let power = S::one();
        Reading {
            point: self,
            entries: Entries::empty(),
            sum,
            power,
        }
    }
}
