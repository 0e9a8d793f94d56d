// The work of a morning in its system: one element, a reading for each device, and the comparison of the figures.
use crate::report::{print_call, print_figure};
use anyhow::bail;
use mornings::drafts::Morning;
use mornings::items::{PointSource, Reason};
use mornings::{draws, points};
use numbers::listed::PrefixListed;
use reading::calls::{Answer, Call};
use reading::states::Figure;
use sheets::runs::read;
use std::random::RandomSource;

// How often a point is drawn at most, until it has an inverse.
const MOST_DRAWS: u32 = 100;

// As many numbers below the limit, from the system's random bytes; none if some bytes are to be drawn again.
fn draw_numbers(rt: &HostRuntime, count: usize, limit: u32) -> anyhow::Result<Option<Vec<u64>>> {
    let mut numbers = Vec::new(rt.alloc());
    for _ in 0..count {
        let mut bytes = [0; 4];
        rt.fill_bytes(&mut bytes)?;
        let Some(n) = draws::number(bytes, limit) else {
            return Ok(None);
        };
        numbers.push(u64::from(n))?;
    }
    Ok(Some(numbers))
}

// A random element with an inverse. All of it is drawn again where some bytes are not used, and where it has no inverse.
fn draw_point<S: PrefixListed>(rt: &HostRuntime, limit: u32) -> anyhow::Result<S> {
    for _ in 0..MOST_DRAWS {
        if let Some(numbers) = draw_numbers(rt, S::size(), limit)? {
            if let Ok(x) = points::point(&numbers) {
                return Ok(x);
            }
        }
    }
    bail!("no point with an inverse came in {MOST_DRAWS} draws")
}

// The element of a morning's point.
fn find_point<S: PrefixListed>(rt: &HostRuntime, morning: &Morning) -> anyhow::Result<S> {
    match &morning.point {
        PointSource::Random => draw_point(rt, morning.system.limit()),
        PointSource::Given(numbers) => Ok(points::point(numbers).map_err(Reason::Refused)?),
    }
}

// Reads the sheet of a device at the element, from the point that is drawn anew to the figure, and prints what it answers and shows.
fn read_device<S: PrefixListed>(
    rt: &HostRuntime,
    x: S,
    calls: &[Call],
) -> anyhow::Result<Figure<S>> {
    let mut answers = vec![in rt.alloc(); Ok(Answer::Count(0)); calls.len()]?;
    let run = read(x, calls, &mut answers).map_err(Reason::Refused)?;
    for (call, answer) in calls.iter().zip(&answers) {
        print_call(rt, *call, answer)?;
    }
    print_figure(rt, &run.figure)?;
    Ok(run.figure)
}

// Reads the sheets of the dock and of the handsets at one element, and compares each handset's figure with the dock's.
pub(crate) fn work<S: PrefixListed>(rt: &HostRuntime, morning: &Morning) -> anyhow::Result<()> {
    let x = find_point::<S>(rt, morning)?;
    println!(rt; "system {}", morning.system)?;
    println!(rt; "dock")?;
    let dock = read_device(rt, x, &morning.dock)?;
    let mut alike = 0usize;
    for handset in &morning.handsets {
        println!(rt; "handset {}", handset.number)?;
        if read_device(rt, x, &handset.calls)?.alike(&dock) {
            alike = alike.saturating_add(1);
            println!(rt; "  alike")?;
        } else {
            println!(rt; "  not alike")?;
        }
    }
    let all = morning.handsets.len();
    println!(rt; "{alike} of {all} handsets alike")?;
    Ok(())
}
