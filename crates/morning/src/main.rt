// A morning at the dock: its lines are read from standard input, the dock and each handset read their sheets at one point, and the figures are compared.
#![tactic(auto)]

mod gather;
mod report;
mod work;

use catalog::systems::{
    System1, System2, System3, System4, System5, System6, System7, System8, System9,
};
use mornings::items::SystemNumber;
use work::work;

fn main(rt: HostRuntime) -> anyhow::Result<()> {
    let morning = gather::gather(&rt)?;
    match morning.system {
        SystemNumber::One => work::<System1>(&rt, &morning),
        SystemNumber::Two => work::<System2>(&rt, &morning),
        SystemNumber::Three => work::<System3>(&rt, &morning),
        SystemNumber::Four => work::<System4>(&rt, &morning),
        SystemNumber::Five => work::<System5>(&rt, &morning),
        SystemNumber::Six => work::<System6>(&rt, &morning),
        SystemNumber::Seven => work::<System7>(&rt, &morning),
        SystemNumber::Eight => work::<System8>(&rt, &morning),
        SystemNumber::Nine => work::<System9>(&rt, &morning),
    }
}
