// Quarters priced by hand with the incentive component over codes 1 to 5.
use crate::bytes::Bytes;
use crate::bytes::Formed::Down;
use crate::quarters::{balanced, three_levels};
use pricing::Terms;
use std::test::Fail;

// The exact prices are 346 2/3 under codes 1 and 5, and 1000.00 under the others. 346.66 is below 346 2/3, and 346.67
// above it: both give 346.67.
#[test]
fn lifted_up_prices(rt: HostRuntime) -> Result<(), Fail> {
    let unchanged = "11 U 346.67\n12 U 1000.00\n13 U 1000.00\n14 U 1000.00\n15 U 346.67\n";
    let cases = [
        (None, unchanged),
        (Some(-9_999_900), unchanged),
        (Some(34_666), unchanged),
        (Some(34_667), unchanged),
        (
            Some(34_668),
            "11 U 346.68\n12 U 1000.00\n13 U 1000.00\n14 U 1000.00\n15 U 346.68\n",
        ),
        (
            Some(100_000),
            "11 U 1000.00\n12 U 1000.00\n13 U 1000.00\n14 U 1000.00\n15 U 1000.00\n",
        ),
        (
            Some(9_999_900),
            "11 U 99999.00\n12 U 99999.00\n13 U 99999.00\n14 U 99999.00\n15 U 99999.00\n",
        ),
    ];
    for (avoided, lines) in cases {
        let printed = three_levels(rt.alloc(), avoided)?.printed_under(Terms::WithIncentive)?;
        assert_eq!(rt; printed.as_str(), lines, "at {avoided:?}");
    }
    Ok(())
}

// 1 kW at -0.02, 2 kW at 0.00: the exact mean is -2/3 of a cent, and the lowest counting price -0.02.
#[test]
fn lowered_down_prices(rt: HostRuntime) -> Result<(), Fail> {
    let unchanged = "11 D -0.01\n12 D -0.01\n13 D -0.01\n14 D -0.02\n15 D -0.01\n";
    let cases = [
        (None, unchanged),
        (Some(9_999_900), unchanged),
        (Some(0), unchanged),
        (Some(-1), unchanged),
        (
            Some(-2),
            "11 D -0.02\n12 D -0.02\n13 D -0.02\n14 D -0.02\n15 D -0.02\n",
        ),
        (
            Some(-9_999_900),
            "11 D -99999.00\n12 D -99999.00\n13 D -99999.00\n14 D -99999.00\n15 D -99999.00\n",
        ),
    ];
    for (avoided, lines) in cases {
        let mut bytes = Bytes::head(rt.alloc(), -1, avoided)?;
        bytes.priced(Down, 1, -1, -2)?;
        bytes.priced(Down, 1, -2, 0)?;
        bytes.idle(226)?;
        let printed = bytes.printed_under(Terms::WithIncentive)?;
        assert_eq!(rt; printed.as_str(), lines, "at {avoided:?}");
    }
    Ok(())
}

// Avoided stays avoided, and refused stays refused.
#[test]
fn balanced_with_the_incentive(rt: HostRuntime) -> Result<(), Fail> {
    let cases = [
        (
            Some(700),
            "11 A 7.00\n12 A 7.00\n13 A 7.00\n14 A 7.00\n15 A 7.00\n",
        ),
        (None, "11 ! 8\n12 ! 8\n13 ! 8\n14 ! 8\n15 ! 8\n"),
    ];
    for (avoided, lines) in cases {
        let printed = balanced(rt.alloc(), avoided)?.printed_under(Terms::WithIncentive)?;
        assert_eq!(rt; printed.as_str(), lines, "at {avoided:?}");
    }
    Ok(())
}

// The refusals of sheets and of slots are those of the rulebooks alone.
#[test]
fn refused_with_the_incentive(rt: HostRuntime) -> Result<(), Fail> {
    let least = Bytes::zeros(rt.alloc(), b"ISP1", 230)?;
    assert_eq!(rt;
        least.printed_under(Terms::WithIncentive)?.as_str(),
        "11 ! 7\n12 ! 7\n13 ! 7\n14 ! 7\n15 ! 7\n"
    );
    let short = Bytes::zeros(rt.alloc(), b"ISP1", 229)?;
    let printed = short.printed_under(Terms::WithIncentive)?;
    assert_eq!(rt; printed.as_str(), "! 1 233\n");
    Ok(())
}
