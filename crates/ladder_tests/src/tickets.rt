// Tickets on a ladder.
use crate::calls::{refused, stand};
use crate::ticket::Ticket;
use ladders::Ladder;
use std::test::Fail;

// By period, then party; three at most.
#[test]
fn on_a_ladder(rt: HostRuntime) -> Result<(), Fail> {
    let ticket = |period, party| Ticket { period, party };
    let mut memory = [ticket(0, 0); 5];
    let mut ladder = Ladder::new(&mut memory);
    assert!(rt; ladder.add(ticket(2, 0))? == 0);
    assert!(rt; ladder.add(ticket(1, 255))? == 0);
    assert!(rt; ladder.add(ticket(1, 7))? == 0);
    assert!(rt; refused(ladder.add(ticket(0, 0)), 17, 3));
    assert!(rt; refused(ladder.add(ticket(1, 7)), 18, 263));
    assert!(rt; stand(&ladder, &[263, 511, 512]));
    assert_eq!(rt; ladder.withdraw(511), Ok(ticket(1, 255)));
    assert!(rt; refused(ladder.withdraw(511), 19, 511));
    assert!(rt; ladder.add(ticket(255, 255))? == 2);
    assert_eq!(rt;
        memory,
        [
            ticket(1, 7),
            ticket(2, 0),
            ticket(255, 255),
            ticket(0, 0),
            ticket(0, 0)
        ]
    );
    Ok(())
}
