// Payments worked out over plain arrays, for a day of 100 quarters and 32 parties.
use crate::fault::{Fault, Refusal};
use crate::fraction::Fraction;

pub(crate) const PERIODS: usize = 100;

pub(crate) const PARTIES: usize = 32;

/// A quarter, with the cents of its price.
#[derive(Clone, Copy)]
enum Quarter {
    Blank,
    Priced(i64),
    Closed(i64),
}

/// The kWh of a party in each quarter, and the cents that it was paid.
#[derive(Clone, Copy)]
struct Party {
    imbalances: [i64; PERIODS],
    paid: i64,
}

#[derive(Drop)]
pub(crate) struct Ledger {
    quarters: [Quarter; PERIODS],
    parties: [Party; PARTIES],
}

impl Quarter {
    fn cents(self) -> i64 {
        match self {
            Quarter::Blank => 0,
            Quarter::Priced(cents) | Quarter::Closed(cents) => cents,
        }
    }
}

impl Party {
    // The imbalances at the standing prices, in thousandths of a cent.
    fn imbalance_amount(&self, quarters: &[Quarter; PERIODS]) -> i128 {
        let both = quarters.iter().zip(self.imbalances.iter());
        both.fold(0i128, |sum, (quarter, kwh)| {
            let product = i128::from(quarter.cents()).saturating_mul(i128::from(*kwh));
            sum.saturating_add(product)
        })
    }
}

impl Ledger {
    pub(crate) fn new() -> Ledger {
        Ledger {
            quarters: [Quarter::Blank; PERIODS],
            parties: [Party {
                imbalances: [0; PERIODS],
                paid: 0,
            }; PARTIES],
        }
    }

    // A quarter that is not closed.
    fn open(&mut self, period: usize) -> Result<&mut Quarter, Fault> {
        match self.quarters.get_mut(period) {
            None => Err(Refusal::PeriodOutOfRange.at(period)),
            Some(Quarter::Closed(_)) => Err(Refusal::QuarterClosed.at(period)),
            Some(quarter) => Ok(quarter),
        }
    }

    /// Files a price that is in bounds.
    pub(crate) fn price(&mut self, period: usize, cents: i64) -> Result<i64, Fault> {
        *self.open(period)? = Quarter::Priced(cents);
        Ok(cents)
    }

    /// Notes an imbalance. A party out of range is refused before a closed quarter.
    pub(crate) fn meter(&mut self, period: usize, party: usize, kwh: i64) -> Result<i64, Fault> {
        let beyond = Refusal::PeriodOutOfRange.at(period);
        let quarter = self.quarters.get(period).ok_or(beyond)?;
        let beyond = Refusal::PartyOutOfRange.at(party);
        let found = self.parties.get_mut(party).ok_or(beyond)?;
        if matches!(quarter, Quarter::Closed(_)) {
            return Err(Refusal::QuarterClosed.at(period));
        }
        found.imbalances[period] = kwh;
        Ok(kwh)
    }

    /// Closes a priced quarter, and answers its price.
    pub(crate) fn close(&mut self, period: usize) -> Result<i64, Fault> {
        let quarter = self.open(period)?;
        let Quarter::Priced(cents) = *quarter else {
            return Err(Refusal::QuarterBlank.at(period));
        };
        *quarter = Quarter::Closed(cents);
        Ok(cents)
    }

    /// Pays what is due over the whole day, less what was paid before.
    pub(crate) fn settle(&mut self, party: usize) -> Result<i64, Fault> {
        let Some(found) = self.parties.get_mut(party) else {
            return Err(Refusal::PartyOutOfRange.at(party));
        };
        let thousandths = Fraction {
            n: found.imbalance_amount(&self.quarters),
            d: 1_000,
        };
        let due = thousandths.nearest();
        let before = found.paid;
        found.paid = due;
        Ok(due.saturating_sub(before))
    }
}
