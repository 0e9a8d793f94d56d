// All lines of a morning, read before anything is worked out.
use anyhow::{anyhow, ensure};
use mornings::drafts::{Draft, Morning};
use mornings::items::Fault;
use std::io::{BufRead, BufReader};

// The morning that standard input tells. Each bad line is printed with its number and its reason, and what is lacking at the end; then there is no morning.
pub(crate) fn gather(rt: &HostRuntime) -> anyhow::Result<Morning> {
    let heap = rt.alloc();
    let mut draft = Draft::new(heap);
    let mut number = 0u64;
    let mut bad = 0u64;
    for read in BufReader::new(heap, rt.stdin())?.lines(heap) {
        number = number.saturating_add(1);
        match draft.read(heap, read?.as_str()) {
            Ok(()) => {}
            Err(Fault::Bad(reason)) => {
                bad = bad.saturating_add(1);
                println!(rt; "line {number}: {reason}")?;
            }
            Err(Fault::NoMemory(error)) => return Err(error.into()),
        }
    }
    ensure!(bad == 0, "no morning: {bad} bad lines");
    match draft.finish() {
        Ok(morning) => Ok(morning),
        Err(missing) => {
            println!(rt; "the end: {missing}")?;
            Err(anyhow!("no morning: {missing}"))
        }
    }
}
