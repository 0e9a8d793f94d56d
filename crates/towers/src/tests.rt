// Inverses in the tower: answered where there is one, and refused elsewhere, at zero divisors too. The figures were worked out apart from this code.
use crate::Tower;
use numbers::listed::PrefixListed;
use numbers::system::System;
use std::process::Abort;
use std::test::Fail;

// The inverse of the element with the first list is the one with the second.
fn inverts(rt: &impl Abort, list: &[u64], inverse: &[u64]) -> Result<(), Fail> {
    let a = Tower::from_list(list)?;
    let b = Tower::from_list(inverse)?;
    assert!(rt; a.inverse().is_some_and(|found| found.same(&b)));
    assert!(rt; a.mul(&b).same(&Tower::one()));
    Ok(())
}

// The element with this list has no inverse.
fn refuses(rt: &impl Abort, list: &[u64]) -> Result<(), Fail> {
    let a = Tower::from_list(list)?;
    assert!(rt; a.inverse().is_none());
    Ok(())
}

#[test]
fn answers(rt: HostRuntime) -> Result<(), Fail> {
    assert_eq!(rt; Tower::size(), 24);
    // 5 + 2 Y
    inverts(
        &rt,
        &[
            5, 0, 0, 2, 0, 0, 0, 0, 0, 0, 0, 0, 0, 0, 0, 0, 0, 0, 0, 0, 0, 0, 0, 0,
        ],
        &[
            1, 4, 4, 2, 8, 8, 4, 4, 4, 8, 8, 8, 4, 4, 4, 8, 8, 8, 4, 4, 4, 8, 8, 8,
        ],
    )?;
    // Y, whose 24th power is 5
    inverts(
        &rt,
        &[
            0, 0, 0, 1, 0, 0, 0, 0, 0, 0, 0, 0, 0, 0, 0, 0, 0, 0, 0, 0, 0, 0, 0, 0,
        ],
        &[
            0, 0, 0, 0, 0, 0, 0, 0, 0, 0, 0, 0, 0, 0, 0, 0, 0, 0, 0, 0, 0, 0, 0, 5,
        ],
    )?;
    // 1 + 6 Y², its own inverse
    inverts(
        &rt,
        &[
            1, 0, 0, 0, 0, 0, 6, 0, 0, 0, 0, 0, 0, 0, 0, 0, 0, 0, 0, 0, 0, 0, 0, 0,
        ],
        &[
            1, 0, 0, 0, 0, 0, 6, 0, 0, 0, 0, 0, 0, 0, 0, 0, 0, 0, 0, 0, 0, 0, 0, 0,
        ],
    )
}

#[test]
fn refusals(rt: HostRuntime) -> Result<(), Fail> {
    // zero
    refuses(
        &rt,
        &[
            0, 0, 0, 0, 0, 0, 0, 0, 0, 0, 0, 0, 0, 0, 0, 0, 0, 0, 0, 0, 0, 0, 0, 0,
        ],
    )?;
    // 2, a zero divisor of the residues
    refuses(
        &rt,
        &[
            2, 0, 0, 0, 0, 0, 0, 0, 0, 0, 0, 0, 0, 0, 0, 0, 0, 0, 0, 0, 0, 0, 0, 0,
        ],
    )?;
    // 1 + Y
    refuses(
        &rt,
        &[
            1, 0, 0, 1, 0, 0, 0, 0, 0, 0, 0, 0, 0, 0, 0, 0, 0, 0, 0, 0, 0, 0, 0, 0,
        ],
    )?;
    // an element with all kinds of coefficients
    refuses(
        &rt,
        &[
            1, 2, 3, 4, 5, 6, 7, 8, 9, 10, 11, 0, 1, 1, 1, 2, 3, 5, 7, 11, 4, 6, 1, 0,
        ],
    )
}
