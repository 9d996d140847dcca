// How a quarter of the book stands, and the calls that it meets.
ghost use Rattle.std.specs.Prelude.{◌≡◌, ◌≤◌, ◌*ℤ◌, unsigned_abs};
ghost use Rattle.settlement.specs.Standings.{quote_in, standing_cents};
ghost use Rattle.settlement.specs.declared.quarter.TheConstants.{MOST_AMOUNT};

use metering::Imbalance;
use pricing::{Quote, QuoteFault};

// The most thousandths of a cent, either way, of an imbalance at a price: 15,000,000 kWh at 9,999,900.
const MOST_AMOUNT: u64 = 149_998_500_000_000;

/// A quarter with what is filed of it: the direction, code and price of its quote.
#[derive(Clone, Copy)]
pub enum Quarter {
    Blank,
    Priced(Quote),
    Closed(Quote),
}

impl Quarter {
    /// The quote that is filed, if there is one.
    pub fn quote(self) -> Option<Quote>
        ensures filed { result ≡ quote_in self }
    {
        match self {
            Quarter::Blank => None,
            Quarter::Priced(quote) | Quarter::Closed(quote) => Some(quote),
        }
    }

    // The imbalance at the standing price, in thousandths of a cent.
    #[tactic(auto, using(crate::proofs::Sums::cents_small, crate::proofs::Sums::term_small))]
    pub(crate) fn amount_for(self, imbalance: Imbalance) -> i64
        ensures product { result ≡ imbalance.kwh *ℤ standing_cents self }
        ensures bound { unsigned_abs result ≤ MOST_AMOUNT }
    {
        imbalance.kwh() * self.cents()
    }

    // Cents of the standing price, 0 where there is none.
    pub(crate) fn cents(self) -> i64
        ensures { result ≡ standing_cents self }
    {
        self.quote().map_or(0, |quote| quote.price.cents())
    }
}

// What a quarter is asked to do: to file a quote, which its source may refuse, to take meter values, or to close.
#[derive(Clone, Copy)]
pub(crate) enum Call {
    Price(Result<Quote, QuoteFault>),
    Meter,
    Close,
}
