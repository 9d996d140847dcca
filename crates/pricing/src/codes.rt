// The quotes of a quarter under the five rulebooks, alone or with the incentive component.
ghost use Rattle.std.specs.Prelude.{◌≡◌};
ghost use Rattle.pricing.specs.FiveQuotes.{AreBoundedQuotesOfSource, AreQuotesOfSource, all_unreported, code_under, ruling_under};
ghost use Rattle.pricing.specs.Quotes.{IsQuote};
ghost use Rattle.pricing.specs.steps.FiveQuotes.{AreQuotesOfFigures};
ghost use Rattle.pricing.specs.declared.codes.FiveQuotes.{FiveQuotes};

use crate::fault::QuoteFault;
use crate::incentive::Incentive;
use crate::quote::{Quote, quote_figures};
use crate::rulebook::Rulebook;
use crate::rulebooks::{CombinedAll, CombinedAutomatic, Finnish, MaxMin, WeightedAverage};
use figures::{Figures, UnreportedSlot, figures_of};
use source::PriceSource;

/// Under which terms the five rulebooks are asked.
#[derive(Clone, Copy, PartialEq, Eq)]
pub enum Terms {
    /// Each rulebook alone: codes 1 to 5.
    Alone,
    /// The incentive component over each rulebook: codes 11 to 15.
    WithIncentive,
}

impl Terms {
    /// The code of a rulebook under these terms.
    pub fn code<R: Rulebook>(self) -> u16
        ensures { result ≡ code_under self R.Rulebook.CODE }
    {
        match self {
            Terms::Alone => R::CODE,
            Terms::WithIncentive => Incentive::<R>::CODE,
        }
    }
}

/// The quote of each of the five rulebooks, or its refusal.
#[derive(Clone, Copy)]
pub struct FiveQuotes {
    pub weighted_average: Result<Quote, QuoteFault>,
    pub combined_automatic: Result<Quote, QuoteFault>,
    pub combined_all: Result<Quote, QuoteFault>,
    pub max_min: Result<Quote, QuoteFault>,
    pub finnish: Result<Quote, QuoteFault>,
}

impl From<UnreportedSlot> for FiveQuotes {
    ghost from_gives = { λ s q. q ≡ all_unreported s };

    fn from(slot: UnreportedSlot) -> FiveQuotes {
        let refused = Err(QuoteFault::from(slot));
        FiveQuotes {
            weighted_average: refused,
            combined_automatic: refused,
            combined_all: refused,
            max_min: refused,
            finnish: refused,
        }
    }
}

fn quote_under<R: Rulebook + Drop>(
    figures: &Figures,
    rulebook: R,
    terms: Terms,
) -> Result<Quote, QuoteFault>
    ensures { IsQuote (code_under terms R.Rulebook.CODE) (ruling_under terms (R.Rulebook.ruling rulebook) figures.now) figures.now.avoided result }
{
    match terms {
        Terms::Alone => quote_figures(figures, &rulebook),
        Terms::WithIncentive => quote_figures(figures, &Incentive { below: rulebook }),
    }
}

fn quotes_of(figures: &Figures, terms: Terms) -> FiveQuotes
    ensures { AreQuotesOfFigures terms figures.now result }
{
    FiveQuotes {
        weighted_average: quote_under(figures, WeightedAverage, terms),
        combined_automatic: quote_under(figures, CombinedAutomatic, terms),
        combined_all: quote_under(figures, CombinedAll, terms),
        max_min: quote_under(figures, MaxMin, terms),
        finnish: quote_under(figures, Finnish, terms),
    }
}

/// The quotes of what a source tells under the terms, over figures that are worked out once. An unreported slot is refused
/// under each code, with 7; where the result is avoided and the avoided value absent, that code is refused with 8.
pub fn five_quotes<S: PriceSource>(source: &S, terms: Terms) -> FiveQuotes
    ensures quotes_of_the_source { AreQuotesOfSource terms (S.PriceSource.means source.now) result }
    ensures only_answer { (q : FiveQuotes) → AreQuotesOfSource terms (S.PriceSource.means source.now) q → q ≡ result }
    ensures bounds_kept { AreBoundedQuotesOfSource terms (S.PriceSource.means source.now) result }
{
    match figures_of(source) {
        Ok(figures) => quotes_of(&figures, terms),
        Err(slot) => FiveQuotes::from(slot),
    }
}
