// The edges of a sheet: the limit, the 512th entry and the last place.
use crate::readings::root;
use bases::bit::Bit;
use numbers::refusal::Refusal;
use numbers::system::System;
use reading::states::MOST;
use reading::states::points::draw;
use std::process::Abort;
use std::test::Fail;

// In system 8 the limit is 11.
#[test]
fn limit(rt: HostRuntime) -> Result<(), Fail> {
    let mut reading = draw(root())?.begin();
    assert_eq!(rt; reading.append(10), Ok(1));
    assert_eq!(rt; reading.append(11), Err(Refusal::OverLimit));
    Ok(())
}

// A sheet takes 512 entries and no more, and replaces as far as the last.
fn fills<S: System>(rt: &impl Abort, x: S) -> Result<(), Fail> {
    let mut reading = draw(x)?.begin();
    for _ in 1..MOST {
        let _ = reading.append(1)?;
    }
    assert_eq!(rt; reading.append(1), Ok(512));
    assert_eq!(rt; reading.append(0), Err(Refusal::FullSheet));
    assert_eq!(rt; reading.replace(511, 0), Ok(1));
    assert_eq!(rt; reading.replace(512, 0), Err(Refusal::NoSuchPlace));
    Ok(())
}

#[test]
fn full_sheet(rt: HostRuntime) -> Result<(), Fail> {
    fills(&rt, root())?;
    fills(&rt, Bit::from(true))
}
