// Why the book refuses a call.
ghost use Rattle.std.specs.Prelude.{◌≡◌};
ghost use Rattle.settlement.specs.Refusals.{book_number, book_place, count_number, count_place};
ghost use Rattle.settlement.specs.declared.fault.BookFault.TheVariants.{Metering};

use metering::MeteringFault;
use pricing::QuoteFault;
use units::Refusal;

#[derive(Clone, Copy, Debug)]
pub enum BookFault {
    /// The book has no such period.
    PeriodOutOfRange { period: usize },
    /// The book has no such party.
    PartyOutOfRange { party: usize },
    /// The quarter is closed.
    QuarterClosed { period: usize },
    /// A blank quarter can't be closed.
    QuarterBlank { period: usize },
    /// The meter values give no imbalance.
    Metering(MeteringFault),
    /// The source has no quote under the rulebook.
    NoQuote { period: usize, fault: QuoteFault },
}

impl Refusal for BookFault {
    ghost number = { book_number };

    ghost place = { book_place };

    fn number(self) -> u16 {
        match self {
            BookFault::PeriodOutOfRange { .. } => 9,
            BookFault::PartyOutOfRange { .. } => 10,
            BookFault::QuarterClosed { .. } => 11,
            BookFault::QuarterBlank { .. } => 12,
            BookFault::Metering(fault) => fault.number(),
            BookFault::NoQuote { fault, .. } => fault.number(),
        }
    }

    fn place(self) -> usize {
        match self {
            BookFault::PeriodOutOfRange { period }
            | BookFault::QuarterClosed { period }
            | BookFault::QuarterBlank { period } => period,
            BookFault::PartyOutOfRange { party } => party,
            BookFault::Metering(fault) => fault.place(),
            BookFault::NoQuote { fault, .. } => fault.place(),
        }
    }
}

impl From<MeteringFault> for BookFault {
    ghost from_gives = { λ e r. r ≡ Metering e };

    fn from(values: MeteringFault) -> BookFault {
        BookFault::Metering(values)
    }
}

/// A count that no book can have.
#[derive(Clone, Copy, PartialEq, Eq, Debug)]
pub enum CountFault {
    Periods,
    Parties,
}

impl Refusal for CountFault {
    ghost number = { count_number };

    ghost place = { count_place };

    fn number(self) -> u16 {
        14
    }

    fn place(self) -> usize {
        match self {
            CountFault::Periods => 0,
            CountFault::Parties => 1,
        }
    }
}
