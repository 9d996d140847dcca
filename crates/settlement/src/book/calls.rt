// The four calls that change a book: pricing, metering, closing and settling.
ghost use Rattle.std.specs.Prelude.{◌≡◌, Ok, ◌*◌, ◌<◌, ◌≤◌, ◌-ℤ◌, unsigned_abs};
ghost use Rattle.metering.specs.Imbalances.{values_of};
ghost use Rattle.units.specs.Rounding.{rounded};
ghost use Rattle.settlement.specs.Books.{in_book, paid_to, quarter_at};
ghost use Rattle.settlement.specs.Changes.{Metered, Paid};
ghost use Rattle.settlement.specs.Events.{pricing, metering, closing, settling};
ghost use Rattle.settlement.specs.Known.{imbalance_amount};
ghost use Rattle.settlement.specs.Promises.{IsSoundCall};
ghost use Rattle.settlement.specs.steps.Turns.{Turned, meets};
ghost use Rattle.settlement.specs.declared.book.TheConstants.{MOST_PERIODS};
ghost use Rattle.settlement.specs.declared.party.TheConstants.{MOST_PAID};
ghost use Rattle.settlement.specs.declared.quarter.TheConstants.{MOST_AMOUNT};

use crate::book::Book;
use crate::fault::BookFault;
use crate::quarter::{Call, Quarter};
use metering::{Imbalance, MeterValues};
use pricing::{Rulebook, quote_source};
use source::PriceSource;
use units::{Amount, Fraction};

impl Book {
    // The quarter's standing and the call, matched together; the quarter is changed in place.
    fn turn(&mut self, period: usize, call: Call) -> Result<Quarter, BookFault>
        requires { period < self.old.period_count }
        ensures answers { result ≡ meets period (quarter_at self.old period) call }
        ensures changes { Turned self.old self.new period call result }
    {
        let quarters = &mut self.quarters;
        let quarter = &mut quarters[period];
        match (*quarter, call) {
            (Quarter::Blank, Call::Price(Ok(quote)))
            | (Quarter::Priced(_), Call::Price(Ok(quote))) => {
                *quarter = Quarter::Priced(quote);
                Ok(*quarter)
            }
            (Quarter::Blank, Call::Price(Err(fault)))
            | (Quarter::Priced(_), Call::Price(Err(fault))) => {
                Err(BookFault::NoQuote { period, fault })
            }
            (Quarter::Blank, Call::Meter) | (Quarter::Priced(_), Call::Meter) => Ok(*quarter),
            (Quarter::Blank, Call::Close) => Err(BookFault::QuarterBlank { period }),
            (Quarter::Priced(quote), Call::Close) => {
                *quarter = Quarter::Closed(quote);
                Ok(*quarter)
            }
            (Quarter::Closed(_), Call::Price(_))
            | (Quarter::Closed(_), Call::Meter)
            | (Quarter::Closed(_), Call::Close) => Err(BookFault::QuarterClosed { period }),
        }
    }

    // T: the party's imbalances at the standing prices, in thousandths of a cent.
    fn imbalance_amount(&self, party: usize) -> i64
        requires { party < self.now.party_count }
        ensures in_all { result ≡ imbalance_amount (in_book self.now) party }
        ensures bound { unsigned_abs result ≤ MOST_PERIODS * MOST_AMOUNT }
    {
        let quarters = &self.quarters[..self.period_count];
        let mut sum = 0;
        for (quarter, imbalance) in quarters.iter().zip(self.parties[party].imbalances.iter()) {
            sum += quarter.amount_for(*imbalance);
        }
        sum
    }

    // What the party's imbalances come to, in whole cents.
    fn due(&self, party: usize) -> Amount
        requires { party < self.now.party_count }
        ensures in_whole_cents { result.cents ≡ rounded (imbalance_amount (in_book self.now) party) 1000 }
        ensures bound { unsigned_abs result.cents ≤ MOST_PAID }
    {
        let thousandths = Fraction {
            n: self.imbalance_amount(party),
            d: 1000,
        };
        Amount {
            cents: thousandths.nearest(),
        }
    }

    // Puts the party's imbalance in the place of the one before.
    fn put(&mut self, period: usize, party: usize, imbalance: Imbalance)
        requires period { period < self.old.period_count }
        requires party { party < self.old.party_count }
        ensures { Metered self.old self.new period party imbalance }
    {
        let parties = &mut self.parties;
        let metered = &mut parties[party];
        metered.imbalances[period] = imbalance;
    }

    // Pays the party what is due in all, less what it was paid before.
    fn pay(&mut self, party: usize, due: Amount) -> Amount
        requires party { party < self.old.party_count }
        requires due { unsigned_abs due.cents ≤ MOST_PAID }
        ensures less_before { result.cents ≡ due.cents -ℤ (paid_to self.old party).cents }
        ensures in_all { Paid self.old self.new party due }
    {
        let parties = &mut self.parties;
        let settled = &mut parties[party];
        let before = settled.paid;
        settled.paid = due;
        Amount {
            cents: due.cents - before.cents,
        }
    }

    // A pricing of a period that the book has.
    fn price_at<S: PriceSource, R: Rulebook>(
        &mut self,
        period: usize,
        source: &S,
        rulebook: &R,
    ) -> Result<Quarter, BookFault>
        requires { period < self.old.period_count }
        ensures { IsSoundCall (pricing period (S.PriceSource.means source.now) (record { code = R.Rulebook.CODE; net = R.Rulebook.NET; ruling = R.Rulebook.ruling rulebook.now }) result) self.old self.new }
    {
        let answer = quote_source(source, rulebook);
        self.turn(period, Call::Price(answer))
    }

    // A metering of a party in a period, both of which the book has.
    fn meter_at(
        &mut self,
        period: usize,
        party: usize,
        values: &MeterValues<'_>,
    ) -> Result<Imbalance, BookFault>
        requires period { period < self.old.period_count }
        requires party { party < self.old.party_count }
        ensures { IsSoundCall (metering period party (values_of values.now) result) self.old self.new }
    {
        self.turn(period, Call::Meter)?;
        let imbalance = values.imbalance()?;
        self.put(period, party, imbalance);
        Ok(imbalance)
    }

    // A settling of a party that the book has.
    fn settle_at(&mut self, party: usize) -> Amount
        requires { party < self.old.party_count }
        ensures { IsSoundCall (settling party (Ok result)) self.old self.new }
    {
        let due = self.due(party);
        self.pay(party, due)
    }

    /// Quotes the source under the rulebook and files direction, code and price; a new price replaces the old.
    /// Answers the quarter as it now stands. Refused, in this order, with 9, 11, 7 and 8.
    pub fn price<S: PriceSource, R: Rulebook>(
        &mut self,
        period: usize,
        source: &S,
        rulebook: &R,
    ) -> Result<Quarter, BookFault>
        ensures { IsSoundCall (pricing period (S.PriceSource.means source.now) (record { code = R.Rulebook.CODE; net = R.Rulebook.NET; ruling = R.Rulebook.ruling rulebook.now }) result) self.old self.new }
    {
        self.has_period(period)?;
        self.price_at(period, source, rulebook)
    }

    /// Takes the party's meter values for the quarter; the imbalance replaces the one before.
    /// Answers the imbalance. Refused, in this order, with 9, 10, 11 and 13.
    pub fn meter(
        &mut self,
        period: usize,
        party: usize,
        values: &MeterValues<'_>,
    ) -> Result<Imbalance, BookFault>
        ensures { IsSoundCall (metering period party (values_of values.now) result) self.old self.new }
    {
        self.has_period(period)?;
        self.has_party(party)?;
        self.meter_at(period, party, values)
    }

    /// Closes a priced quarter at its price. Answers the quarter as it now stands. Refused, in this order,
    /// with 9, 11 and 12.
    #[tactic(auto, using(crate::proofs::Calls::close_sound))]
    pub fn close(&mut self, period: usize) -> Result<Quarter, BookFault>
        ensures { IsSoundCall (closing period result) self.old self.new }
    {
        self.has_period(period)?;
        self.turn(period, Call::Close)
    }

    /// Pays the party what its imbalances at the standing prices come to, in whole cents, less all that it was paid
    /// before. Answers the payment, positive where the party receives. Refused with 10.
    pub fn settle(&mut self, party: usize) -> Result<Amount, BookFault>
        ensures { IsSoundCall (settling party result) self.old self.new }
    {
        self.has_party(party)?;
        Ok(self.settle_at(party))
    }
}
