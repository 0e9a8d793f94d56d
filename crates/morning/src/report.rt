// What is printed of a reading.
use calculator::respond::show_list;
use numbers::listed::PrefixListed;
use numbers::refusal::Refusal;
use reading::calls::{Answer, Call};
use reading::states::Figure;
use std::alloc::{AllocError, Global};

// The list of an element, as it is printed.
pub(crate) fn show<S: PrefixListed>(heap: Global, x: &S) -> Result<String, AllocError> {
    let numbers: Vec<u64> = (0..S::size())
        .map(|i| u64::from(x.number_at(i)))
        .collect(heap)?;
    show_list(heap, &numbers)
}

// A call with its answer.
pub(crate) fn print_call<S: PrefixListed>(
    rt: &HostRuntime,
    call: Call,
    answer: &Result<Answer<S>, Refusal>,
) -> anyhow::Result<()> {
    match call {
        Call::Append(e) => print!(rt; "  append {e}: ")?,
        Call::Drop => print!(rt; "  drop: ")?,
        Call::Replace(place, e) => print!(rt; "  replace {place} {e}: ")?,
        Call::Look => print!(rt; "  look: ")?,
    }
    match answer {
        Ok(Answer::Count(n)) => println!(rt; "count {n}")?,
        Ok(Answer::Entry(e)) => println!(rt; "entry {e}")?,
        Ok(Answer::Seen(n, x)) => {
            let sum = show(rt.alloc(), x)?;
            println!(rt; "count {n}, sum {sum}")?;
        }
        Err(refusal) => println!(rt; "{refusal}")?,
    }
    Ok(())
}

// The figure that a device shows.
pub(crate) fn print_figure<S: PrefixListed>(
    rt: &HostRuntime,
    figure: &Figure<S>,
) -> anyhow::Result<()> {
    let heap = rt.alloc();
    let point = show(heap, &figure.element())?;
    let count = figure.count();
    let sum = show(heap, &figure.sum())?;
    println!(rt; "  figure: point {point}, count {count}, sum {sum}")?;
    Ok(())
}
