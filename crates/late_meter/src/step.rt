// One call of the book as one printed line.
use metering::Imbalance;
use pricing::Quote;
use settlement::{BookFault, Quarter};
use std::fmt;
use units::{Amount, Refusal};

#[derive(Clone, Copy)]
pub(crate) enum Step {
    Started {
        periods: usize,
        parties: usize,
    },
    Priced {
        period: usize,
        quarter: Quarter,
    },
    Metered(Metered),
    Closed {
        period: usize,
    },
    Settled {
        party: usize,
        payment: Amount,
        in_all: Amount,
    },
}

/// A metering with its answer.
#[derive(Clone, Copy)]
pub(crate) struct Metered {
    pub period: usize,
    pub party: usize,
    pub answer: Result<Imbalance, BookFault>,
}

#[derive(Clone, Copy)]
struct Filed(Option<Quote>);

impl fmt::Display for Filed {
    fn fmt<W: fmt::Write>(&self, f: &mut fmt::Formatter<W>) -> fmt::Result {
        let Some(quote) = self.0 else {
            return write!(f, "blank");
        };
        let direction = quote.direction;
        let euros = Amount::from(quote.price);
        write!(f, "code {}, {direction} {euros} EUR/MWh", quote.code)
    }
}

impl fmt::Display for Metered {
    fn fmt<W: fmt::Write>(&self, f: &mut fmt::Formatter<W>) -> fmt::Result {
        let period = self.period;
        let party = self.party;
        write!(f, "meter quarter {period}, party {party}: ")?;
        match self.answer {
            Ok(imbalance) => write!(f, "{} kWh", imbalance.kwh()),
            Err(fault) => write!(f, "refused, {} at {}", fault.number(), fault.place()),
        }
    }
}

impl fmt::Display for Step {
    fn fmt<W: fmt::Write>(&self, f: &mut fmt::Formatter<W>) -> fmt::Result {
        match *self {
            Step::Started { periods, parties } => {
                write!(f, "start: {periods} quarters, {parties} parties")
            }
            Step::Priced { period, quarter } => {
                let filed = Filed(quarter.quote());
                write!(f, "price quarter {period}: {filed}")
            }
            Step::Metered(metered) => write!(f, "{metered}"),
            Step::Closed { period } => write!(f, "close quarter {period}"),
            Step::Settled {
                party,
                payment,
                in_all,
            } => write!(
                f,
                "settle party {party}: {payment} EUR, in all {in_all} EUR"
            ),
        }
    }
}
