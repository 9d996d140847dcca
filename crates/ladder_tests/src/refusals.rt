// The refusals of a ladder, each of which leaves what stands.
use crate::calls::{refused, stand, up};
use bids::{BidRow, UpBid};
use ladders::Ladder;
use std::test::Fail;

// 18 before 17; 19; and places that are used again.
#[test]
fn calls(rt: HostRuntime) -> Result<(), Fail> {
    let mut memory = [UpBid::default(); 2];
    let mut ladder = Ladder::new(&mut memory);
    ladder.add(up(700, 65_535)?)?;
    assert!(rt; refused(ladder.add(up(100, 65_535)?), 18, 65_535));
    assert!(rt; refused(ladder.withdraw(8), 19, 8));
    ladder.add(up(700, 9)?)?;
    assert!(rt; refused(ladder.add(up(100, 8)?), 17, 2));
    assert!(rt; refused(ladder.add(up(100, 9)?), 18, 9));
    assert!(rt; stand(&ladder, &[9, 65_535]) && ladder.stands(9) && !ladder.stands(8));
    ladder.withdraw(9)?;
    assert!(rt; refused(ladder.withdraw(9), 19, 9));
    assert!(rt; ladder.add(up(100, 8)?)? == 0 && ladder.add(up(100, 9)?).is_err());
    assert!(rt; stand(&ladder, &[8, 65_535]));
    Ok(())
}

#[test]
fn no_places(rt: HostRuntime) -> Result<(), Fail> {
    let mut memory: [UpBid; 0] = [];
    let mut ladder = Ladder::new(&mut memory);
    assert!(rt; refused(ladder.add(up(100, 0)?), 17, 0));
    assert!(rt; refused(ladder.withdraw(0), 19, 0));
    assert!(rt; ladder.len() == 0 && ladder.at(0).is_none() && !ladder.stands(0));
    Ok(())
}

// 512 stand at most, whatever the memory.
#[test]
fn a_longer_memory(rt: HostRuntime) -> Result<(), Fail> {
    let mut memory = [UpBid::default(); 513];
    let mut ladder = Ladder::new(&mut memory);
    for number in 0..512 {
        ladder.add(up(100, number)?)?;
    }
    assert!(rt; refused(ladder.add(up(100, 512)?), 17, 512));
    assert!(rt; refused(ladder.add(up(100, 511)?), 18, 511));
    assert!(rt; ladder.len() == 512);
    assert!(rt; memory[512].0 == BidRow::default() && memory[511].0.number == 511);
    Ok(())
}
