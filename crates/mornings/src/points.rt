// The points of a system, by their lists.
ghost use Rattle.std.specs.Prelude.{◌≡◌, MatchResult};
ghost use Rattle.algebra.specs.Units.{IsUnit};
ghost use Rattle.mornings.specs.Names.{system_of};
ghost use Rattle.mornings.specs.Points.{NotPoint, Tells};

use crate::items::SystemNumber;
use catalog::systems::{
    System1, System2, System3, System4, System5, System6, System7, System8, System9,
};
use numbers::listed::PrefixListed;
use numbers::refusal::Refusal;

// The element that means the list and has an inverse. `CutList` refuses a wrong length, then `OverLimit` a number that is too large, then `NoInverse`.
pub fn point<S: PrefixListed>(numbers: &[u64]) -> Result<S, Refusal>
    ensures { MatchResult result (λ x. (S.sys.list (S.mean x) ≡ numbers.now) × IsUnit S.sys.ops (S.mean x)) (NotPoint S.sys numbers.now) }
{
    let x = S::from_list(numbers)?;
    match x.inverse() {
        Some(_) => Ok(x),
        None => Err(Refusal::NoInverse),
    }
}

// Whether the list is a point of the system.
fn try_point<S: PrefixListed>(numbers: &[u64]) -> Result<(), Refusal>
    ensures { Tells S.sys numbers.now result }
{
    let _ = point::<S>(numbers)?;
    Ok(())
}

// Whether the list is a point of the system of this number.
pub fn check(system: SystemNumber, numbers: &[u64]) -> Result<(), Refusal>
    ensures { Tells (system_of system) numbers.now result }
{
    match system {
        SystemNumber::One => try_point::<System1>(numbers),
        SystemNumber::Two => try_point::<System2>(numbers),
        SystemNumber::Three => try_point::<System3>(numbers),
        SystemNumber::Four => try_point::<System4>(numbers),
        SystemNumber::Five => try_point::<System5>(numbers),
        SystemNumber::Six => try_point::<System6>(numbers),
        SystemNumber::Seven => try_point::<System7>(numbers),
        SystemNumber::Eight => try_point::<System8>(numbers),
        SystemNumber::Nine => try_point::<System9>(numbers),
    }
}
