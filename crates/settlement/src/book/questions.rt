// The questions to a book. None changes it.
ghost use Rattle.std.specs.Prelude.{◌≡◌, List, Ok, Err, IfOk};
ghost use Rattle.std.specs.Option.{option_map_or};
ghost use Rattle.settlement.specs.Answers.{party_fault, period_fault, place_fault};
ghost use Rattle.settlement.specs.Books.{imbalance_at, in_book, paid_to, quarter_at};
ghost use Rattle.settlement.specs.Events.{Event};
ghost use Rattle.settlement.specs.Runs.{Run, imbalance_after, payments_since, quarter_after};

use crate::book::Book;
use crate::fault::BookFault;
use crate::quarter::Quarter;
use metering::Imbalance;
use units::Amount;

impl Book {
    /// How the quarter stands, with what is filed of it. Refused with 9.
    #[tactic(auto, using(crate::proofs::Kept::quarter_said))]
    pub fn quarter(&self, period: usize) -> Result<Quarter, BookFault>
        ensures answers { result ≡ option_map_or Err (period_fault (in_book self.now) period) (Ok (quarter_at self.now period)) }
        ensures as_the_run_says { (h : List Event) → Run h self.now → IfOk result (λ x. x ≡ quarter_after h period) }
    {
        self.has_period(period)?;
        Ok(self.quarters[period])
    }

    /// The party's imbalance in the quarter. Refused with 9, then 10.
    #[tactic(auto, using(crate::proofs::Kept::imbalance_said))]
    pub fn imbalance(&self, period: usize, party: usize) -> Result<Imbalance, BookFault>
        ensures answers { result ≡ option_map_or Err (place_fault (in_book self.now) period party) (Ok (imbalance_at self.now period party)) }
        ensures as_the_run_says { (h : List Event) → Run h self.now → IfOk result (λ x. x.kwh ≡ imbalance_after h period party) }
    {
        self.has_period(period)?;
        self.has_party(party)?;
        let imbalances = &self.parties[party].imbalances;
        Ok(imbalances[period])
    }

    /// All that the party was paid so far. Refused with 10.
    #[tactic(auto, using(crate::proofs::Kept::payments_said))]
    pub fn payments(&self, party: usize) -> Result<Amount, BookFault>
        ensures answers { result ≡ option_map_or Err (party_fault (in_book self.now) party) (Ok (paid_to self.now party)) }
        ensures as_the_run_says { (h : List Event) → Run h self.now → IfOk result (λ x. x.cents ≡ payments_since h party) }
    {
        self.has_party(party)?;
        Ok(self.parties[party].paid)
    }
}
