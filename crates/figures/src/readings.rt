// Readings in system 8, the residues modulo 11 with X^5 = 2, at the point X.
ghost use Rattle.std.specs.Prelude.{◌≡◌, ◌<◌, ◌^◌, true, [], ◌∷◌, length, Ok};
ghost use Rattle.catalog.specs.Catalog.{system_8};
ghost use Rattle.figures.specs.Readings.{X, mean_of, Leaves};
ghost use Rattle.reading.specs.Sheet.{after, sum_of};

use bases::residue::Residue;
use catalog::systems::System8;
use extensions::element::Element;
use numbers::refusal::Refusal;
use quintic::quintuple::Quintuple;
use reading::calls::{Answer, Call};
use reading::states::Figure;
use sheets::comparison::compare;
use sheets::runs::read;

// X, that is [0,1,0,0,0].
pub fn root() -> System8
    ensures { mean_of result ≡ X }
{
    let zero = Residue::from(0);
    Element::new(Quintuple {
        c0: zero,
        c1: Residue::from(1),
        c2: zero,
        c3: zero,
        c4: zero,
    })
}

// What the rows of the table have in common, each with calls and a figure of its own: the figure after any calls at X, which has an inverse; the answers to so many calls fit in memory.
fn figure_after<const N: usize>(calls: &[Call; N]) -> Result<Figure<System8>, Refusal>
    requires { N < 2 ^ 32 }
    ensures { Leaves result (length (after system_8 [] calls.now)) (system_8.list (sum_of system_8 X (after system_8 [] calls.now))) }
{
    let mut out = [Ok(Answer::Count(0)); N];
    let run = read(root(), calls, &mut out)?;
    Ok(run.figure)
}

// Append 3, 4, 5, drop, append 1.
#[tactic(auto, unfolding(reading::specs::Sheet::after))]
pub fn after_a_drop() -> Result<Figure<System8>, Refusal>
    ensures { Leaves result 3 (4 ∷ 5 ∷ 1 ∷ 0 ∷ 0 ∷ []) }
{
    figure_after(&[
        Call::Append(3),
        Call::Append(4),
        Call::Append(5),
        Call::Drop,
        Call::Append(1),
    ])
}

// The sheet 1,0,0,0,0,1.
#[tactic(auto, unfolding(reading::specs::Sheet::after))]
pub fn of_one_and_one() -> Result<Figure<System8>, Refusal>
    ensures { Leaves result 6 (3 ∷ 0 ∷ 0 ∷ 0 ∷ 0 ∷ []) }
{
    let one = Call::Append(1);
    let zero = Call::Append(0);
    figure_after(&[one, zero, zero, zero, zero, one])
}

// The sheet 3,0,0,0,0,0, which has the same figure at X.
#[tactic(auto, unfolding(reading::specs::Sheet::after))]
pub fn of_three() -> Result<Figure<System8>, Refusal>
    ensures { Leaves result 6 (3 ∷ 0 ∷ 0 ∷ 0 ∷ 0 ∷ []) }
{
    let three = Call::Append(3);
    let zero = Call::Append(0);
    figure_after(&[three, zero, zero, zero, zero, zero])
}

// At the one point X these sheets cannot be told apart.
pub fn not_told_apart() -> Result<bool, Refusal>
    ensures { result ≡ Ok true }
{
    let points = [root()];
    compare(&points, &[1, 0, 0, 0, 0, 1], &[3, 0, 0, 0, 0, 0])
}
