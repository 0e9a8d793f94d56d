// The calculator's program: it reads lines from standard input and prints each with its answer, and at the end how many there were of each kind.
#![tactic(auto)]

use calculator::line::Tally;
use calculator::respond::{passed_over, respond};
use std::io::{BufRead, BufReader};

fn run(rt: &HostRuntime) -> anyhow::Result<()> {
    let heap = rt.alloc();
    let mut tally = Tally::new();
    for read in BufReader::new(heap, rt.stdin())?.lines(heap) {
        let line = read?;
        if passed_over(line.as_str()) {
            continue;
        }
        let answer = respond(heap, line.as_str())?;
        println!(rt; "{line} = {answer}")?;
        tally.note(&answer);
    }
    let Tally {
        lines,
        answers,
        refusals,
        unreadable,
    } = tally;
    println!(rt; "{lines} lines: {answers} answers, {refusals} refusals, {unreadable} unreadable")?;
    Ok(())
}

fn main(rt: HostRuntime) -> anyhow::Result<()> {
    run(&rt)
}
