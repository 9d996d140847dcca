// What each calculation answers under one code.
use crate::fault::Numbered;
use crate::plain::Quarter;
use crate::rules::{Asked, Quote, quote_of};
use pricing::{Incentive, QuoteDirection, Rulebook, quote_source};
use sheet::Sheet;
use std::fmt;
use units::Quantity;

/// A quote or its refusal, under a code.
#[derive(Clone, Copy, PartialEq, Eq)]
pub(crate) struct Answer {
    pub code: u16,
    pub quote: Result<Quote, Numbered>,
}

impl From<pricing::Quote> for Quote {
    fn from(quote: pricing::Quote) -> Quote {
        let cents = quote.price.cents();
        match quote.direction {
            QuoteDirection::Up => Quote::Up(cents),
            QuoteDirection::Down => Quote::Down(cents),
            QuoteDirection::Avoided => Quote::Avoided(cents),
        }
    }
}

impl Answer {
    /// The rival's.
    pub(crate) fn rival(quarter: &Quarter, asked: Asked) -> Answer {
        Answer {
            code: asked.code(),
            quote: quote_of(quarter, asked).map_err(Numbered::from),
        }
    }

    /// The library's; a refusal has no code, and takes that of the rulebook.
    fn library<R: Rulebook>(sheet: &Sheet<'_>, rulebook: &R) -> Answer {
        match quote_source(sheet, rulebook) {
            Ok(quote) => Answer {
                code: quote.code,
                quote: Ok(Quote::from(quote)),
            },
            Err(fault) => Answer {
                code: R::CODE,
                quote: Err(Numbered::of(fault)),
            },
        }
    }
}

impl fmt::Display for Answer {
    fn fmt<W: fmt::Write>(&self, f: &mut fmt::Formatter<W>) -> fmt::Result {
        let code = self.code;
        match self.quote {
            Ok(quote) => write!(f, "{code} {quote}"),
            Err(fault) => write!(f, "{code} ! {}", fault.number),
        }
    }
}

/// The answers of both under a rulebook with no, one and two incentive components over it.
#[derive(Clone, Copy)]
pub(crate) struct Answers {
    pub rival: [Answer; 3],
    library: [Answer; 3],
}

impl Answers {
    pub(crate) fn new<R: Rulebook + Clone + Copy + Drop>(
        sheet: &Sheet<'_>,
        quarter: &Quarter,
        rulebook: R,
        own: Asked,
    ) -> Answers {
        let once = Incentive { below: rulebook };
        let twice = Incentive { below: once };
        Answers {
            rival: [0, 1, 2].map(|incentives| Answer::rival(quarter, Asked { incentives, ..own })),
            library: [
                Answer::library(sheet, &rulebook),
                Answer::library(sheet, &once),
                Answer::library(sheet, &twice),
            ],
        }
    }

    pub(crate) fn agree(&self) -> bool {
        self.rival == self.library
    }
}

impl fmt::Display for Answers {
    fn fmt<W: fmt::Write>(&self, f: &mut fmt::Formatter<W>) -> fmt::Result {
        let [alone, once, twice] = self.rival;
        write!(f, "{alone}, {once}, {twice}")
    }
}
