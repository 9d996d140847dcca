// The bounds of a bid.
use crate::calls::refused;
use bids::{Bid, BidFault};
use std::test::Fail;
use units::{Price, Quantity};

fn made(kw: i64, number: i64) -> Result<Bid, BidFault> {
    Bid::new(Price::lowest(), kw, number)
}

#[test]
fn bounds(rt: HostRuntime) -> Result<(), Fail> {
    let least = Bid::new(Price::new(-1)?, 1, 0)?;
    assert!(rt; least.price.cents() == -1 && least.kw == 1 && least.number == 0);
    let most = made(10_000_000, 65_535)?;
    assert!(rt; most.kw == 10_000_000 && most.number == 65_535);
    for kw in [i64::MIN, 0, 10_000_001, i64::MAX] {
        assert!(rt; refused(made(kw, 1), 20, 0), "{kw} kW");
        assert!(rt; refused(made(kw, -1), 20, 0), "{kw} kW, and the number too");
    }
    for number in [i64::MIN, -1, 65_536, i64::MAX] {
        assert!(rt; refused(made(1, number), 5, 3), "number {number}");
    }
    Ok(())
}
