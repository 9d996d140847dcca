// Starting a book.
ghost use Rattle.std.specs.Prelude.{◌≡◌, Result};
ghost use Rattle.settlement.specs.Starting.{MostCounts, Started};
ghost use Rattle.settlement.specs.declared.book.Book.{Book};
ghost use Rattle.settlement.specs.declared.fault.CountFault.{CountFault};

use crate::book::{Book, MOST_PARTIES, MOST_PERIODS};
use crate::fault::CountFault;
use crate::party::Party;
use crate::quarter::Quarter;

impl Book {
    /// A book of blank quarters, in which nothing is metered and nothing paid. Refused with 14.
    pub fn start(periods: usize, parties: usize) -> Result<Book, CountFault>
        ensures started { Started periods parties result }
        ensures most_counts { MostCounts }
        ensures only_answer { (r : Result Book CountFault) → Started periods parties r → r ≡ result }
    {
        if !(1..=MOST_PERIODS).contains(&periods) {
            return Err(CountFault::Periods);
        }
        if !(1..=MOST_PARTIES).contains(&parties) {
            return Err(CountFault::Parties);
        }
        Ok(Book {
            quarters: [Quarter::Blank; MOST_PERIODS],
            parties: [Party::blank(); MOST_PARTIES],
            period_count: periods,
            party_count: parties,
        })
    }
}
