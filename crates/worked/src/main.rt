// The program that prints the table of worked figures: products, a square and inverses as the calculator prints them, and the figures of three readings.
#![tactic(auto)]

use calculator::respond::show_list;
use figures::answers::Worked;
use figures::readings::not_told_apart;
use figures::table::worked;
use numbers::listed::PrefixListed;
use numbers::refusal::Refusal;
use reading::states::Figure;

// An element's list as it is printed.
fn list<S: PrefixListed>(rt: &HostRuntime, x: &S) -> anyhow::Result<String> {
    let heap = rt.alloc();
    let numbers: Vec<u64> = (0..S::size())
        .map(|i| u64::from(x.number_at(i)))
        .collect(heap)?;
    Ok(show_list(heap, &numbers)?)
}

// A row that asks for an element; where the table has none, there is no inverse.
fn element<S: PrefixListed>(
    rt: &HostRuntime,
    question: &str,
    answer: &Option<S>,
) -> anyhow::Result<()> {
    match answer {
        Some(x) => println!(rt; "{question} = {}", list(rt, x)?)?,
        None => println!(rt; "{question} = {}", Refusal::NoInverse)?,
    }
    Ok(())
}

// A row that tells the count and the sum of a reading's figure.
fn figure<S: PrefixListed>(
    rt: &HostRuntime,
    calls: &str,
    answer: &Result<Figure<S>, Refusal>,
) -> anyhow::Result<()> {
    match answer {
        Ok(figure) => {
            let sum = list(rt, &figure.sum())?;
            println!(rt; "{calls}: count {}, sum {sum}", figure.count())?;
        }
        Err(refusal) => println!(rt; "{calls}: {refusal}")?,
    }
    Ok(())
}

fn run(rt: &HostRuntime) -> anyhow::Result<()> {
    let Worked {
        product1,
        inverse1,
        inverse2,
        square3,
        product5,
        inverse7,
        inverse8,
        inverse9,
        refused9,
        drop8,
        ones8,
        three8,
    } = worked();
    element(rt, "system 1 multiply [1,1,0,0] [1,0,0,1]", &product1)?;
    element(rt, "system 1 inverse [0,1,0,0]", &inverse1)?;
    element(rt, "system 2 inverse [1,1,0,0,0,0,0,0]", &inverse2)?;
    element(rt, "system 3 square [0,0,0,0,1]", &square3)?;
    element(
        rt,
        "system 5 multiply [0,0,1,0,0,0] [0,0,0,0,1,0]",
        &product5,
    )?;
    element(rt, "system 7 inverse [0,1,0,0,0]", &inverse7)?;
    element(rt, "system 8 inverse [1,1,0,0,0]", &inverse8)?;
    element(rt, "system 9 inverse [2,1]", &inverse9)?;
    element(rt, "system 9 inverse [1,1]", &refused9)?;
    println!(rt; "system 8 point [0,1,0,0,0]")?;
    figure(rt, "append 3, append 4, append 5, drop, append 1", &drop8)?;
    figure(
        rt,
        "append 1, append 0, append 0, append 0, append 0, append 1",
        &ones8,
    )?;
    figure(
        rt,
        "append 3, append 0, append 0, append 0, append 0, append 0",
        &three8,
    )?;
    match not_told_apart() {
        Ok(true) => println!(rt; "the last two sheets: alike")?,
        Ok(false) => println!(rt; "the last two sheets: not alike")?,
        Err(refusal) => println!(rt; "the last two sheets: {refusal}")?,
    }
    Ok(())
}

fn main(rt: HostRuntime) -> anyhow::Result<()> {
    run(&rt)
}
