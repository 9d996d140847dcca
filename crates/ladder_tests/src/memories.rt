// A ladder's memory, read when the ladder is gone.
use crate::calls::{refused, up};
use crate::mornings::morning;
use bids::{BidRow, UpBid};
use ladders::Ladder;
use std::test::Fail;

// What a place holds before a bid needs it.
fn mark(number: u16) -> UpBid {
    UpBid(BidRow {
        number,
        ..BidRow::default()
    })
}

fn numbers(memory: &[UpBid; 5]) -> [u16; 5] {
    memory.map(|item| item.0.number)
}

// Adding writes no place behind those that stand then, withdrawing leaves the last place that was used, and a refused
// call nothing.
#[test]
fn places_behind(rt: HostRuntime) -> Result<(), Fail> {
    let mut memory = [101, 102, 103, 104, 105].map(mark);
    let mut ladder = Ladder::new(&mut memory);
    ladder.add(up(300, 3)?)?;
    ladder.add(up(100, 1)?)?;
    ladder.add(up(200, 2)?)?;
    assert_eq!(rt; numbers(&memory), [1, 2, 3, 104, 105]);
    let mut ladder = Ladder::new(&mut memory);
    ladder.add(up(500, 5)?)?;
    ladder.add(up(600, 6)?)?;
    ladder.withdraw(5)?;
    assert!(rt; refused(ladder.withdraw(5), 19, 5));
    assert!(rt; refused(ladder.add(up(100, 6)?), 18, 6));
    assert_eq!(rt; numbers(&memory), [6, 6, 3, 104, 105]);
    Ok(())
}

#[test]
fn one_morning(rt: HostRuntime) -> Result<(), Fail> {
    let mut memory = [101, 102, 103, 104, 105].map(mark);
    assert!(rt; morning(&mut memory, up(300, 3)?, up(100, 1)?, 9) == 2);
    assert_eq!(rt; numbers(&memory), [1, 3, 103, 104, 105]);
    assert!(rt; morning(&mut memory, up(300, 3)?, up(100, 1)?, 1) == 1);
    assert_eq!(rt; numbers(&memory), [3, 3, 103, 104, 105]);
    Ok(())
}
