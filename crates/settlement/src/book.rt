// The book itself, and what always holds of it.
ghost use Rattle.std.specs.Prelude.{◌≡◌, ◌<◌, ◌≤◌, IfErr, OnOk, length};
ghost use Rattle.settlement.specs.declared.book.TheConstants.{MOST_PERIODS, MOST_PARTIES};
ghost use Rattle.settlement.specs.declared.fault.BookFault.TheVariants.{PeriodOutOfRange, PartyOutOfRange};

use crate::fault::BookFault;
use crate::party::Party;
use crate::quarter::Quarter;

pub mod calls;
pub mod questions;
pub mod start;

/// The most periods of a book.
pub const MOST_PERIODS: usize = 100;

/// The most parties of a book.
pub const MOST_PARTIES: usize = 32;

/// The settlement of one area and day: each party has an imbalance in each quarter. Its places are fixed, so it
/// takes no heap.
#[derive(Drop)]
pub struct Book {
    quarters: [Quarter; MOST_PERIODS],
    parties: [Party; MOST_PARTIES],
    period_count: usize,
    party_count: usize,
    ghost places: { (MOST_PERIODS ≤ length quarters) × (MOST_PARTIES ≤ length parties) },
    ghost counts: { (1 ≤ period_count) × (period_count ≤ MOST_PERIODS) × (1 ≤ party_count) × (party_count ≤ MOST_PARTIES) },
}

impl Book {
    // Refused with 9 where the book has no such period.
    fn has_period(&self, period: usize) -> Result<(), BookFault>
        ensures within { OnOk result (period < self.now.period_count) }
        ensures past { IfErr result (λ fault. (fault ≡ PeriodOutOfRange period) × (self.now.period_count ≤ period)) }
    {
        if period < self.period_count {
            Ok(())
        } else {
            Err(BookFault::PeriodOutOfRange { period })
        }
    }

    // Refused with 10 where the book has no such party.
    fn has_party(&self, party: usize) -> Result<(), BookFault>
        ensures within { OnOk result (party < self.now.party_count) }
        ensures past { IfErr result (λ fault. (fault ≡ PartyOutOfRange party) × (self.now.party_count ≤ party)) }
    {
        if party < self.party_count {
            Ok(())
        } else {
            Err(BookFault::PartyOutOfRange { party })
        }
    }
}
