// One printed line: the quote of a quarter under one code, or its refusal.
ghost use Rattle.std.specs.Prelude.{◌≡◌, Some};
ghost use Rattle.lines.specs.Answers.{IsLine};
ghost use Rattle.lines.specs.Texts.{line_text, outcome_text};
ghost use Rattle.lines.specs.declared.line.Line.{Line};

use figures::Figures;
use pricing::{Quote, QuoteFault, Rulebook, quote_figures};
use std::fmt;
use units::{Amount, Refusal};

/// A rulebook's code, and what is answered under it.
#[derive(Clone, Copy)]
pub struct Line {
    pub code: u16,
    pub answer: Result<Quote, QuoteFault>,
}

impl fmt::Display for Line {
    ghost output = { λ x. Some (line_text x) };

    fn fmt<W: fmt::Write>(&self, f: &mut fmt::Formatter<W>) -> fmt::Result {
        let code = self.code;
        match self.answer {
            Ok(quote) => {
                let direction = quote.direction;
                let euros = Amount::from(quote.price);
                write!(f, "{code} {direction} {euros}\n")
            }
            Err(fault) => {
                let number = fault.number();
                write!(f, "{code} ! {number}\n")
            }
        }
    }
}

/// The line of figures under a rulebook: its code, and the quote of what it decides, or 8 where that is the avoided
/// value and there is none.
#[tactic(auto, using(crate::proofs::Only::only_line, crate::proofs::Outcomes::outcome_printed))]
pub fn line_of<R: Rulebook>(figures: &Figures, rulebook: &R) -> Line
    ensures answer { IsLine R.Rulebook.CODE (R.Rulebook.ruling rulebook.now figures.now) figures.now.avoided result }
    ensures only_line { (l : Line) → IsLine R.Rulebook.CODE (R.Rulebook.ruling rulebook.now figures.now) figures.now.avoided l → l ≡ result }
    ensures text { line_text result ≡ outcome_text R.Rulebook.CODE (R.Rulebook.ruling rulebook.now figures.now) figures.now.avoided }
{
    Line {
        code: R::CODE,
        answer: quote_figures(figures, rulebook),
    }
}
