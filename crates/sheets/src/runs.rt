// A whole reading: any calls, one after another, from a point that is drawn to the figure that is left.
ghost use Rattle.std.specs.Prelude.{◌≡◌, map, length, Ok, Err};
ghost use Rattle.reading.specs.Sheet.{after, answers, said};
ghost use Rattle.reading.specs.Sound.{sheet};
ghost use Rattle.sheets.specs.Agreement.{Agreement};
ghost use Rattle.sheets.specs.Runs.{OnlyInverse, AsPlainSheet, Refused};

use numbers::refusal::Refusal;
use numbers::system::System;
use reading::calls::{Answer, Call};
use reading::states::points::draw;
use reading::states::{Figure, Reading};

// What a whole reading leaves: the inverse by which its drops were worked out, and its figure.
#[derive(Drop)]
pub struct Run<S: System> {
    pub inverse: S,
    pub figure: Figure<S>,
}

// Makes the calls one after another, and puts down the answer to each.
fn play<S: System>(reading: &mut Reading<S>, calls: &[Call], out: &mut [Result<Answer<S>, Refusal>])
    requires { length out.old ≡ length calls.now }
    ensures point { reading.new.point.element ≡ reading.old.point.element }
    ensures list { sheet reading.new ≡ after S.sys (sheet reading.old) calls.now }
    ensures answers { map (said S.mean) out.new ≡ answers S.sys (S.mean reading.old.point.element) (sheet reading.old) calls.now }
{
    // by places, since a proof knows nothing of what is written through an adapter of `iter_mut`
    for (i, call) in calls.iter().enumerate() {
        out[i] = reading.call(*call);
    }
}

// Reads a sheet at x: draws the point, begins, makes the calls one after another with the answer to each in `out`, and closes. `CutList` refuses an `out` that
// is not as long as `calls`, and then `NoInverse` an element without inverse; a refusal writes nothing.
//
// inverse: the element is refused exactly where no element times it is one; otherwise the inverse that was used is the one element that is.
// runs: the answers are the plain sheet's to the same calls, whatever they are, and the figure has the element with that sheet's count and sum there.
// agreement: two sheets of equally many entries that any such calls have read at as many points or more, and that show equal sums at each of them, are
// equal entry for entry, if any two of the points differ by a unit.
pub fn read<S: System>(
    x: S,
    calls: &[Call],
    out: &mut [Result<Answer<S>, Refusal>],
) -> Result<Run<S>, Refusal>
    ensures inverse { elim result [ Ok run ↦ OnlyInverse S.sys.ops (S.mean x) (S.mean run.inverse) | Err q ↦ Refused S.sys (S.mean x) (length calls.now) (length out.old) q ] }
    ensures runs { elim result [ Ok run ↦ AsPlainSheet S.sys S.mean x calls.now out.new run.figure | Err q ↦ out.new ≡ out.old ] }
    ensures agreement { Agreement S.sys }
{
    if out.len() != calls.len() {
        return Err(Refusal::CutList);
    }
    let point = draw(x)?;
    let inverse = point.inverse();
    let mut reading = point.begin();
    play(&mut reading, calls, out);
    let figure = reading.close();
    Ok(Run { inverse, figure })
}
