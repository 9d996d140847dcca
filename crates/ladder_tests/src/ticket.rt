// Tickets: items from outside the library.
ghost use Rattle.std.specs.Prelude.{◌≡◌};

use ladders::Item;

/// A ticket of a party for a period; a ladder has them by period, and by party within it.
#[derive(Clone, Copy, PartialEq, Eq, Debug)]
pub struct Ticket {
    pub period: u8,
    pub party: u8,
}

impl Item for Ticket {
    ghost use Rattle.ladder_tests.specs.Tickets.{most_tickets, ticket_order};
    ghost use Rattle.ladder_tests.specs.laws.Strict.{tickets_are_strict, tickets_go_by_number};
    ghost use Rattle.std.specs.Prelude.{true};

    const MOST: usize = 3;

    const BY_NUMBER: bool = true;

    ghost MOST = { most_tickets };

    ghost BY_NUMBER = { true };

    ghost order = { ticket_order };

    fn number(self) -> u16 {
        u16::from(self.period) * 256 + u16::from(self.party)
    }

    fn is_before(self, other: Ticket) -> bool {
        self.number() < other.number()
    }

    ghost is_strict = { tickets_are_strict };

    ghost goes_by_number = { tickets_go_by_number };
}
