// Two sheets, compared by their figures.
ghost use Rattle.std.specs.Prelude.{◌≡◌, ◌≤◌, T, map, length, Ok, Err};
ghost use Rattle.algebra.specs.Polynomial.{Apart};
ghost use Rattle.algebra.specs.Units.{IsUnit, NoInverse};
ghost use Rattle.reading.specs.Sheet.{most, sum_of, Below};
ghost use Rattle.sheets.specs.Comparisons.{Readable, Unreadable, SameFigures, Tells};

use numbers::refusal::Refusal;
use numbers::system::System;
use reading::states::points::draw;
use reading::states::{Figure, MOST};

// Refuses entries that are not all below the limit.
fn check_limit<S: System>(entries: &[u64]) -> Result<(), Refusal>
    ensures { elim result [ Ok _ ↦ Below S.sys.limit entries.now | Err q ↦ (q ≡ Refusal.OverLimit) × (Below S.sys.limit entries.now → ⊥) ] }
{
    for &e in entries {
        let _ = S::entry(e)?;
    }
    Ok(())
}

// The figure at x of a sheet with these entries.
fn figure_at<S: System>(x: S, entries: &[u64]) -> Result<Figure<S>, Refusal>
    requires below { Below S.sys.limit entries.now }
    requires fits { length entries.now ≤ most }
    ensures { elim result [ Ok f ↦ IsUnit S.sys.ops (S.mean x) × (f.element ≡ x) × (f.count ≡ length entries.now) × (S.mean f.sum ≡ sum_of S.sys (S.mean x) entries.now) | Err q ↦ (q ≡ Refusal.NoInverse) × NoInverse S.sys.ops (S.mean x) ] }
{
    let mut reading = draw(x)?.begin();
    for &e in entries {
        let _ = reading.append(e)?;
    }
    Ok(reading.close())
}

// Whether two sheets have alike figures at every one of the points. `OverLimit` refuses an entry of either that is not below the limit, then `FullSheet` more
// entries than a sheet holds, and then `NoInverse` a point without inverse.
//
// alike: true exactly where both have equally many entries and equal sums at each point.
// equal: true means that the sheets are equal entry for entry, if the points are at least as many as the entries and any two of them differ by a unit.
// different: equal sheets have true for an answer, so that false means that the sheets are different.
pub fn compare<S: System>(points: &[S], left: &[u64], right: &[u64]) -> Result<bool, Refusal>
    ensures refused { elim result [ Ok _ ↦ Readable S.sys (map S.mean points.now) left.now right.now | Err q ↦ Unreadable S.sys (map S.mean points.now) left.now right.now q ] }
    ensures alike { elim result [ Ok b ↦ Tells b (SameFigures S.sys (map S.mean points.now) left.now right.now) | Err _ ↦ Unit {0} ] }
    ensures equal { elim result [ Ok b ↦ (T b → length left.now ≤ length points.now → Apart S.sys.ops (map S.mean points.now) → left.now ≡ right.now) | Err _ ↦ Unit {0} ] }
    ensures different { elim result [ Ok b ↦ (left.now ≡ right.now → T b) | Err _ ↦ Unit {0} ] }
{
    check_limit::<S>(left)?;
    check_limit::<S>(right)?;
    if left.len() > MOST || right.len() > MOST {
        return Err(Refusal::FullSheet);
    }
    let mut alike = left.len() == right.len();
    for x in points {
        let left_figure = figure_at(*x, left)?;
        let right_figure = figure_at(*x, right)?;
        alike &= left_figure.alike(&right_figure);
    }
    Ok(alike)
}
