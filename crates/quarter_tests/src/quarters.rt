// Quarters worked by hand.
use crate::bytes::Bytes;
use crate::bytes::Formed::{Down, Up};
use std::alloc::{AllocError, Global};
use std::test::Fail;

// Three price levels of automatic demand: the weighted mean is 346 2/3, and the highest counting price 1000.00.
pub(crate) fn three_levels(heap: Global, avoided: Option<i32>) -> Result<Bytes, AllocError> {
    let mut bytes = Bytes::head(heap, 400_000, avoided)?;
    bytes.priced(Up, 75, 100_000, 20_000)?;
    bytes.priced(Up, 75, 100_000, 40_000)?;
    bytes.priced(Up, 75, 100_000, 70_000)?;
    bytes.priced(Up, 1, 300_000, 10_000)?;
    bytes.priced(Up, 1, 100_000, 100_000)?;
    bytes.idle(1)?;
    Ok(bytes)
}

#[test]
fn three_price_levels(rt: HostRuntime) -> Result<(), Fail> {
    assert_eq!(rt;
        three_levels(rt.alloc(), Some(5_000))?.printed()?.as_str(),
        "1 U 346.67\n2 U 1000.00\n3 U 1000.00\n4 U 1000.00\n5 U 346.67\n"
    );
    Ok(())
}

// The Finnish note's row of 15:00, with an avoided value that the note does not have: the weighted mean is 64.29, and the
// highest price formed 100.00.
pub(crate) fn first_quarter(heap: Global, avoided: Option<i32>) -> Result<Bytes, AllocError> {
    let mut bytes = Bytes::head(heap, 200_000, avoided)?;
    bytes.priced(Up, 225, 80_000, 10_000)?;
    bytes.priced(Up, 1, 200_000, 5_000)?;
    bytes.idle(2)?;
    Ok(bytes)
}

// The weighted mean, since manual energy was activated.
#[test]
fn manual_energy_activated(rt: HostRuntime) -> Result<(), Fail> {
    assert_eq!(rt;
        first_quarter(rt.alloc(), None)?.printed()?.as_str(),
        "1 U 64.29\n2 U 100.00\n3 U 64.29\n4 U 100.00\n5 U 64.29\n"
    );
    Ok(())
}

// The row of 15:45: no manual energy, so the extreme of the automatic mean and the formed manual price.
#[test]
fn manual_price_formed_only(rt: HostRuntime) -> Result<(), Fail> {
    let mut bytes = Bytes::head(rt.alloc(), 400_000, None)?;
    bytes.priced(Up, 225, 200_000, 5_000)?;
    bytes.priced(Up, 1, 0, 10_000)?;
    bytes.idle(2)?;
    assert_eq!(rt;
        bytes.printed()?.as_str(),
        "1 U 50.00\n2 U 50.00\n3 U 50.00\n4 U 50.00\n5 U 100.00\n"
    );
    Ok(())
}

// The mean of 0.00 and 0.01 is half a cent, which goes away from zero, and so does its mirror.
#[test]
fn half_cents(rt: HostRuntime) -> Result<(), Fail> {
    let cases = [
        (1, "1 U 0.01\n2 U 0.01\n3 U 0.01\n4 U 0.01\n5 A 0.00\n"),
        (-1, "1 U -0.01\n2 U -0.01\n3 U -0.01\n4 U 0.00\n5 A 0.00\n"),
    ];
    for (cents, lines) in cases {
        let mut bytes = Bytes::head(rt.alloc(), 0, Some(0))?;
        bytes.priced(Up, 1, 1, 0)?;
        bytes.priced(Up, 1, 1, cents)?;
        bytes.idle(226)?;
        assert_eq!(rt; bytes.printed()?.as_str(), lines, "at {cents}");
    }
    Ok(())
}

// Demand both ways with a net of 0.
pub(crate) fn balanced(heap: Global, avoided: Option<i32>) -> Result<Bytes, AllocError> {
    let mut bytes = Bytes::head(heap, 0, avoided)?;
    bytes.priced(Up, 1, 1, 1_000)?;
    bytes.priced(Down, 1, -1, 500)?;
    bytes.idle(226)?;
    Ok(bytes)
}

#[test]
fn balanced_quarter(rt: HostRuntime) -> Result<(), Fail> {
    let cases = [
        (
            Some(700),
            "1 A 7.00\n2 A 7.00\n3 A 7.00\n4 A 7.00\n5 A 7.00\n",
        ),
        (None, "1 ! 8\n2 ! 8\n3 ! 8\n4 ! 8\n5 ! 8\n"),
    ];
    for (avoided, lines) in cases {
        let bytes = balanced(rt.alloc(), avoided)?;
        assert_eq!(rt; bytes.printed()?.as_str(), lines, "at {avoided:?}");
    }
    Ok(())
}

// Down is the mirror of up: the lowest is the extreme, and a half cent goes away from zero.
#[test]
fn down_quarter(rt: HostRuntime) -> Result<(), Fail> {
    let mut bytes = Bytes::head(rt.alloc(), -1, None)?;
    bytes.priced(Down, 1, -1, 0)?;
    bytes.priced(Down, 1, -1, -1)?;
    bytes.idle(223)?;
    bytes.priced(Down, 1, 0, -300)?;
    bytes.idle(2)?;
    assert_eq!(rt;
        bytes.printed()?.as_str(),
        "1 D -0.01\n2 D -0.01\n3 D -0.01\n4 D -0.01\n5 D -3.00\n"
    );
    Ok(())
}
