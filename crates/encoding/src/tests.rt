// The layout of the bytes, in the systems of the catalog. The bytes were written out by hand.
use crate::encoded::Encoded;
use bases::bit::Bit;
use bases::modulus::{KoalaBear, Modulus};
use bases::residue::Residue;
use catalog::systems::{System5, System7};
use extensions::coefficients::Coefficients;
use numbers::refusal::Refusal;
use numbers::system::System;
use std::process::Abort;
use std::test::Fail;

// Three complex coefficients: 1 + 305419896 i, then 259 + 2^30 i, then −1 + 6 i.
const THIRDS: [u8; 24] = [
    1, 0, 0, 0, 0x78, 0x56, 0x34, 0x12, 3, 1, 0, 0, 0, 0, 0, 0x40, 0xfe, 0xff, 0xff, 0x7f, 6, 0, 0,
    0,
];

// The coefficient at power 1 is the middle third.
#[test]
fn thirds(rt: HostRuntime) -> Result<(), Fail> {
    let x = System5::decode(&THIRDS)?;
    let low = x.coefficient(0);
    assert!(rt; low.coefficient(1).same(&Residue::from(305_419_896)));
    let middle = x.coefficient(1);
    assert!(rt; middle.coefficient(0).same(&Residue::from(259)));
    assert!(rt; middle.coefficient(1).same(&Residue::from(1_073_741_824)));
    let high = x.coefficient(2);
    assert!(rt; high.coefficient(0).same(&Residue::one().neg()));
    let mut out = [7; 24];
    x.encode(&mut out)?;
    assert_eq!(rt; out, THIRDS);
    Ok(())
}

// A wrong length is refused before a number that is too large, and a refused list stays as it was.
#[test]
fn refusals(rt: HostRuntime) -> Result<(), Fail> {
    let mut bytes = THIRDS;
    bytes[16] = 0xff;
    assert_eq!(rt; System5::decode(&bytes).err(), Some(Refusal::OverLimit));
    assert_eq!(rt; System5::decode(&bytes[..21]).err(), Some(Refusal::CutList));
    assert_eq!(rt; System5::decode(&[]).err(), Some(Refusal::CutList));
    let x = System5::decode(&THIRDS)?;
    let mut long = [7; 27];
    assert_eq!(rt; x.encode(&mut long), Err(Refusal::CutList));
    assert_eq!(rt; long, [7; 27]);
    Ok(())
}

// A residue is encoded by its remainder, however it is held.
#[test]
fn remainders(rt: HostRuntime) -> Result<(), Fail> {
    let x = Residue::<KoalaBear>::new(KoalaBear::MODULUS + 2).unwrap_or(Residue::zero());
    let mut out = [7; 4];
    x.encode(&mut out)?;
    assert_eq!(rt; out, [2, 0, 0, 0]);
    assert_eq!(rt;
        Residue::<KoalaBear>::decode(&[1, 0, 0, 0x7f]).err(),
        Some(Refusal::OverLimit)
    );
    Ok(())
}

// Five bits, each as four bytes.
#[test]
fn bits(rt: HostRuntime) -> Result<(), Fail> {
    let mut bytes = [0; 20];
    bytes[12] = 1;
    let x = System7::decode(&bytes)?;
    assert!(rt; x.coefficient(3).is_one());
    let mut out = [7; 20];
    x.encode(&mut out)?;
    assert_eq!(rt; out, bytes);
    bytes[0] = 2;
    assert_eq!(rt; System7::decode(&bytes).err(), Some(Refusal::OverLimit));
    assert_eq!(rt; Bit::decode(&bytes).err(), Some(Refusal::CutList));
    Ok(())
}
