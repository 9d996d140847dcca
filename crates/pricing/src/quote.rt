// The quote of a quarter under a rulebook.
ghost use Rattle.std.specs.Prelude.{◌≡◌, [], ◌∷◌, Some, None};
ghost use Rattle.figures.specs.Gathering.{AreFiguresOf};
ghost use Rattle.figures.specs.declared.quarter_figures.Figures.{Figures};
ghost use Rattle.pricing.specs.Bounds.{IsBoundedQuote, IsBoundedQuoteOfSource};
ghost use Rattle.pricing.specs.FourLaws.{IsFromFormed, KeepsLaws};
ghost use Rattle.pricing.specs.Quotes.{Answer, IsQuote, IsQuoteOfSource, letter, quoted_direction};

use crate::fault::QuoteFault;
use crate::rulebook::Rulebook;
use figures::{Figures, figures_of};
use source::{Direction, PriceSource};
use std::fmt;
use units::Price;

/// The direction that a quote names: up, down, or the avoided activation.
#[derive(Clone, Copy, PartialEq, Eq)]
pub enum QuoteDirection {
    Up,
    Down,
    Avoided,
}

/// The imbalance price of a quarter, with its direction and the code of the rulebook.
#[derive(Clone, Copy)]
pub struct Quote {
    pub code: u16,
    pub direction: QuoteDirection,
    pub price: Price,
}

impl From<Direction> for QuoteDirection {
    ghost from_gives = { λ d r. r ≡ quoted_direction d };

    fn from(direction: Direction) -> QuoteDirection {
        match direction {
            Direction::Up => QuoteDirection::Up,
            Direction::Down => QuoteDirection::Down,
        }
    }
}

impl fmt::Display for QuoteDirection {
    ghost output = { λ d. Some (letter d ∷ []) };

    fn fmt<W: fmt::Write>(&self, f: &mut fmt::Formatter<W>) -> fmt::Result {
        match self {
            QuoteDirection::Up => write!(f, "U"),
            QuoteDirection::Down => write!(f, "D"),
            QuoteDirection::Avoided => write!(f, "A"),
        }
    }
}

/// The quote of figures that were worked out before.
pub fn quote_figures<R: Rulebook>(figures: &Figures, rulebook: &R) -> Result<Quote, QuoteFault>
    ensures quote_of_the_ruling { IsQuote R.Rulebook.CODE (R.Rulebook.ruling rulebook.now figures.now) figures.now.avoided result }
    ensures only_answer { (a : Answer) → IsQuote R.Rulebook.CODE (R.Rulebook.ruling rulebook.now figures.now) figures.now.avoided a → a ≡ result }
    ensures laws_kept { KeepsLaws R.Rulebook.NET figures.now (R.Rulebook.ruling rulebook.now figures.now) }
    ensures bounds_kept { IsBoundedQuote figures.now.avoided figures.now result }
    ensures formed_bounds_kept { IsFromFormed figures.now (R.Rulebook.ruling rulebook.now figures.now) → IsBoundedQuote None figures.now result }
{
    let code = R::CODE;
    let Some(directed) = rulebook.decide(figures) else {
        let price = figures.avoided.ok_or(QuoteFault::NoAvoidedValue)?;
        return Ok(Quote {
            code,
            direction: QuoteDirection::Avoided,
            price,
        });
    };
    Ok(Quote {
        code,
        direction: QuoteDirection::from(directed.direction),
        price: directed.price.nearest_cent(),
    })
}

/// The quote of what a source tells; an unreported slot is refused before a missing avoided value.
pub fn quote_source<S: PriceSource, R: Rulebook>(
    source: &S,
    rulebook: &R,
) -> Result<Quote, QuoteFault>
    ensures quote_of_the_source { IsQuoteOfSource (S.PriceSource.means source.now) R.Rulebook.CODE (R.Rulebook.ruling rulebook.now) result }
    ensures only_answer { (a : Answer) → IsQuoteOfSource (S.PriceSource.means source.now) R.Rulebook.CODE (R.Rulebook.ruling rulebook.now) a → a ≡ result }
    ensures laws_kept { (f : Figures) → AreFiguresOf (S.PriceSource.means source.now) f → KeepsLaws R.Rulebook.NET f (R.Rulebook.ruling rulebook.now f) }
    ensures bounds_kept { IsBoundedQuoteOfSource (S.PriceSource.means source.now).avoided (S.PriceSource.means source.now) result }
    ensures formed_bounds_kept { ((f : Figures) → AreFiguresOf (S.PriceSource.means source.now) f → IsFromFormed f (R.Rulebook.ruling rulebook.now f)) → IsBoundedQuoteOfSource None (S.PriceSource.means source.now) result }
{
    let figures = figures_of(source)?;
    quote_figures(&figures, rulebook)
}
