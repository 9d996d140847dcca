// The area's book and the ledger of one day, called side by side.
use crate::fault::{Fault, Numbered};
use crate::generator::Dice;
use crate::ledger::{Ledger, PARTIES, PERIODS};
use crate::plain::{PRICE, SLOTS};
use metering::MeterValues;
use pricing::Finnish;
use settlement::{Book, BookFault, Quarter};
use source::{Row, Table};
use units::{Price, Quantity, ZoneNet};

/// The answers to one call: cents or kWh, none for a quarter that stays blank, or a refusal.
#[derive(Clone, Copy)]
pub(crate) struct Replies {
    pub rival: Result<Option<i64>, Numbered>,
    pub library: Result<Option<i64>, Numbered>,
}

#[derive(Drop)]
pub(crate) struct Day {
    book: Book,
    ledger: Ledger,
}

/// The values of a party in a quarter, in kWh.
#[derive(Clone, Copy)]
pub(crate) struct Metered {
    pub schedules: [i64; 2],
    pub allocated: i64,
    pub adjustment: i64,
}

impl Replies {
    fn new(rival: Result<i64, Fault>, library: Result<Option<i64>, BookFault>) -> Replies {
        Replies {
            rival: rival.map(Some).map_err(Numbered::from),
            library: library.map_err(Numbered::of),
        }
    }

    pub(crate) fn agree(&self) -> bool {
        self.rival == self.library
    }
}

fn cents_of(quarter: Quarter) -> Option<i64> {
    quarter.quote().map(|quote| quote.price.cents())
}

impl Metered {
    fn values(&self) -> MeterValues<'_> {
        MeterValues {
            schedules: &self.schedules,
            allocated: self.allocated,
            adjustment: self.adjustment,
        }
    }

    fn imbalance(&self) -> i64 {
        let position = self
            .schedules
            .iter()
            .fold(0i64, |sum, kwh| sum.saturating_add(*kwh));
        let rest = self.allocated.saturating_sub(position);
        rest.saturating_sub(self.adjustment)
    }
}

impl Day {
    /// Both counts are in range, so the book is started.
    pub(crate) fn start() -> Day {
        Day {
            book: Book::start(PERIODS, PARTIES).unwrap(),
            ledger: Ledger::new(),
        }
    }

    /// Prices a quarter without demand, whose price is then the avoided value.
    pub(crate) fn price(&mut self, period: usize, cents: i64) -> Replies {
        let rows = [Row::IDLE; SLOTS];
        let table = Table {
            rows: &rows,
            zone_net: ZoneNet::zero(),
            avoided: Price::new(cents).ok(),
        };
        Replies::new(
            self.ledger.price(period, cents),
            self.book.price(period, &table, &Finnish).map(cents_of),
        )
    }

    pub(crate) fn meter(&mut self, period: usize, party: usize, metered: &Metered) -> Replies {
        let answer = self.book.meter(period, party, &metered.values());
        Replies::new(
            self.ledger.meter(period, party, metered.imbalance()),
            answer.map(|imbalance| Some(imbalance.kwh())),
        )
    }

    pub(crate) fn settle(&mut self, party: usize) -> Replies {
        let answer = self.book.settle(party);
        Replies::new(
            self.ledger.settle(party),
            answer.map(|payment| Some(payment.cents)),
        )
    }

    fn close(&mut self, period: usize) -> Replies {
        Replies::new(
            self.ledger.close(period),
            self.book.close(period).map(cents_of),
        )
    }

    /// A call from the sequence; the last numbers of period and party are out of range.
    pub(crate) fn any_call(&mut self, dice: &mut Dice) -> Replies {
        let period = dice.roll(101) as usize;
        let party = dice.roll(33) as usize;
        match dice.roll(40) {
            0 => self.close(period),
            1..=9 => self.price(period, dice.within(PRICE)),
            10..=29 => {
                let metered = Metered {
                    schedules: [dice.within(2_500_000), dice.within(2_500_000)],
                    allocated: dice.within(5_000_000),
                    adjustment: dice.within(5_000_000),
                };
                self.meter(period, party, &metered)
            }
            _ => self.settle(party),
        }
    }
}
