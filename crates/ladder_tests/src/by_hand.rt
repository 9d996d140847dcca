// The ladder of three up bids and five down bids, worked by hand.
use crate::calls::{down, stand, up};
use bids::{DownBid, UpBid};
use ladders::Ladder;
use std::test::Fail;

// 35, 38, 41: the cheapest first.
#[test]
fn upward(rt: HostRuntime) -> Result<(), Fail> {
    let mut memory = [UpBid::default(); 8];
    let mut ladder = Ladder::new(&mut memory);
    assert!(rt; ladder.add(up(4_100, 3)?)? == 0);
    assert!(rt; ladder.add(up(3_500, 1)?)? == 0);
    assert!(rt; ladder.add(up(3_800, 2)?)? == 1);
    assert!(rt; stand(&ladder, &[1, 2, 3]));
    let cents = ladder.at(2).map(|item| item.0.cents);
    assert_eq!(rt; cents, Some(4_100));
    assert!(rt; ladder.at(0).is_some_and(|item| item.0.kw == 5_000));
    assert!(rt; ladder.at(3).is_none());
    assert!(rt; ladder.add(up(3_800, 0)?)? == 1);
    assert!(rt; stand(&ladder, &[1, 0, 2, 3]));
    Ok(())
}

// 31, 28, 15, 14, 11: the dearest first.
#[test]
fn downward(rt: HostRuntime) -> Result<(), Fail> {
    let mut memory = [DownBid::default(); 8];
    let mut ladder = Ladder::new(&mut memory);
    assert!(rt; ladder.add(down(1_100, 5)?)? == 0);
    assert!(rt; ladder.add(down(3_100, 1)?)? == 0);
    assert!(rt; ladder.add(down(1_500, 3)?)? == 1);
    assert!(rt; ladder.add(down(2_800, 2)?)? == 1);
    assert!(rt; ladder.add(down(1_400, 4)?)? == 3);
    assert!(rt; stand(&ladder, &[1, 2, 3, 4, 5]));
    assert!(rt; ladder.withdraw(3)?.0.cents == 1_500);
    assert!(rt; stand(&ladder, &[1, 2, 4, 5]));
    assert!(rt; ladder.add(down(1_400, 3)?)? == 2);
    assert!(rt; stand(&ladder, &[1, 2, 3, 4, 5]));
    Ok(())
}
