// Rulebooks from outside the library, alone and under the incentive component.
use crate::bytes::Bytes;
use crate::quarters::first_quarter;
use crate::reference_price::Referenced;
use crate::under_code::UnderCode;
use pricing::{Finnish, Incentive, Quote, Rulebook, quote_source};
use sheet::Sheet;
use std::test::Fail;
use units::{Price, Quantity};

fn quoted<R: Rulebook + Drop>(bytes: &Bytes, rulebook: R) -> Result<Quote, Fail> {
    let sheet = Sheet::read(bytes.sheet.as_slice());
    Ok(quote_source(&sheet, &rulebook)?)
}

// A rulebook from outside is quoted as the library's own are, and by the price that it holds. The weighted mean is 64.29
// and the highest price formed 100.00.
#[test]
fn own_rulebook(rt: HostRuntime) -> Result<(), Fail> {
    let bytes = first_quarter(rt.alloc(), None)?;
    for (reference, cents) in [(1_000, 6_429), (8_000, 8_000), (15_000, 10_000)] {
        let reference = Price::new(reference)?;
        let quote = quoted(&bytes, Referenced { reference })?;
        assert_eq!(rt; quote.code, 31);
        assert_eq!(rt; quote.price.cents(), cents);
    }
    Ok(())
}

// Under the incentive component its code is 41, and its exact price of 80.00 is lifted where the avoided value is higher,
// also beyond the highest price formed.
#[test]
fn incentive_over_own_rulebook(rt: HostRuntime) -> Result<(), Fail> {
    let below = Referenced {
        reference: Price::new(8_000)?,
    };
    let cases = [
        (None, 8_000),
        (Some(7_000), 8_000),
        (Some(8_000), 8_000),
        (Some(8_001), 8_001),
        (Some(12_000), 12_000),
    ];
    for (avoided, cents) in cases {
        let bytes = first_quarter(rt.alloc(), avoided)?;
        let quote = quoted(&bytes, Incentive { below })?;
        assert_eq!(rt; quote.code, 41);
        assert_eq!(rt; quote.price.cents(), cents, "at {avoided:?}");
    }
    Ok(())
}

fn under<const N: u16>() -> UnderCode<Finnish, N> {
    UnderCode { rulebook: Finnish }
}

// Code 5 decides, under another code: the price is the same.
#[test]
fn other_code(rt: HostRuntime) -> Result<(), Fail> {
    let bytes = first_quarter(rt.alloc(), None)?;
    let quote = quoted(&bytes, under::<65_530>())?;
    assert_eq!(rt; quote.code, 65_530);
    assert_eq!(rt; quote.price.cents(), 6_429);
    Ok(())
}

// The code of the incentive component and that of another one over it, over a rulebook of code `N`.
fn codes_above<const N: u16>(bytes: &Bytes) -> Result<(u16, u16), Fail> {
    let layer = Incentive {
        below: under::<N>(),
    };
    let once = quoted(bytes, layer)?;
    let twice = quoted(bytes, Incentive { below: layer })?;
    Ok((once.code, twice.code))
}

// Ten above the rulebook below, 65,535 at most.
#[test]
fn codes_of_the_incentive(rt: HostRuntime) -> Result<(), Fail> {
    let bytes = first_quarter(rt.alloc(), None)?;
    assert!(rt; codes_above::<0>(&bytes)? == (10, 20));
    assert!(rt; codes_above::<65_515>(&bytes)? == (65_525, 65_535));
    assert!(rt; codes_above::<65_524>(&bytes)? == (65_534, 65_535));
    assert!(rt; codes_above::<65_525>(&bytes)? == (65_535, 65_535));
    assert!(rt; codes_above::<65_526>(&bytes)? == (65_535, 65_535));
    assert!(rt; codes_above::<65_530>(&bytes)? == (65_535, 65_535));
    assert!(rt; codes_above::<65_535>(&bytes)? == (65_535, 65_535));
    Ok(())
}
