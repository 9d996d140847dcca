// All lines of one quarter: a line for each rulebook, or the refusal of its sheet.
ghost use Rattle.std.specs.Prelude.{◌≡◌, ℕ, List, Some};
ghost use Rattle.sheet.specs.Laws.{DecideSheet};
ghost use Rattle.lines.specs.Answers.{IsAnswer, IsPrinted};
ghost use Rattle.lines.specs.Quarters.{answers_by_code, five_text, lines_text};
ghost use Rattle.lines.specs.declared.quarter_lines.QuarterLines.{QuarterLines};

use crate::line::Line;
use pricing::{
    CombinedAll, CombinedAutomatic, Finnish, FiveQuotes, MaxMin, Quote, QuoteFault, Terms,
    WeightedAverage, five_quotes,
};
use sheet::{Sheet, SheetFault};
use std::fmt;

/// The lines of the five rulebooks under the terms.
#[derive(Clone, Copy)]
pub struct FiveLines {
    pub terms: Terms,
    pub quotes: FiveQuotes,
}

impl fmt::Display for FiveLines {
    ghost output = { λ x. Some (five_text x.terms x.quotes) };

    fn fmt<W: fmt::Write>(&self, f: &mut fmt::Formatter<W>) -> fmt::Result {
        let FiveQuotes {
            weighted_average,
            combined_automatic,
            combined_all,
            max_min,
            finnish,
        } = self.quotes;
        let terms = self.terms;
        let line = |code, answer| Line { code, answer };
        let first = line(terms.code::<WeightedAverage>(), weighted_average);
        let second = line(terms.code::<CombinedAutomatic>(), combined_automatic);
        let third = line(terms.code::<CombinedAll>(), combined_all);
        let fourth = line(terms.code::<MaxMin>(), max_min);
        let fifth = line(terms.code::<Finnish>(), finnish);
        write!(f, "{first}{second}{third}{fourth}{fifth}")
    }
}

/// What is printed of a sheet: its quotes under the five rulebooks and the terms, or its first fault.
#[derive(Clone, Copy)]
pub struct QuarterLines {
    pub terms: Terms,
    pub answer: Result<FiveQuotes, SheetFault>,
}

/// The quote or the refusal under each rulebook, in the order of the codes.
pub type FiveAnswers = [Result<Quote, QuoteFault>; 5];

impl FiveLines {
    /// The quote or the refusal under each rulebook, in the order of the codes.
    pub fn answers(&self) -> FiveAnswers
        ensures { result ≡ answers_by_code self.now.quotes }
    {
        let quotes = self.quotes;
        [
            quotes.weighted_average,
            quotes.combined_automatic,
            quotes.combined_all,
            quotes.max_min,
            quotes.finnish,
        ]
    }
}

impl fmt::Display for QuarterLines {
    ghost output = { λ x. Some (lines_text x) };

    fn fmt<W: fmt::Write>(&self, f: &mut fmt::Formatter<W>) -> fmt::Result {
        let terms = self.terms;
        match self.answer {
            Ok(quotes) => write!(f, "{}", FiveLines { terms, quotes }),
            Err(fault) => write!(f, "{fault}\n"),
        }
    }
}

fn quotes_of(bytes: &[u8], terms: Terms) -> Result<FiveQuotes, SheetFault>
    ensures answer { IsAnswer terms bytes.now (record { terms = terms; answer = result }) }
{
    let sheet = Sheet::read(bytes);
    sheet.check()?;
    Ok(five_quotes(&sheet, terms))
}

/// The lines under the terms of a sheet of any bytes, which are those of every sheet that the bytes decide.
#[tactic(auto, using(crate::proofs::Only::only_answer, crate::proofs::Decided::answers_decided))]
pub fn lines_of(bytes: &[u8], terms: Terms) -> QuarterLines
    ensures answer { IsAnswer terms bytes.now result }
    ensures answers_decided { (s : List ℕ) → DecideSheet bytes.now s → IsAnswer terms s result }
    ensures only_answer { (l : QuarterLines) → IsAnswer terms bytes.now l → l ≡ result }
    ensures text { IsPrinted terms bytes.now (lines_text result) }
{
    QuarterLines {
        terms,
        answer: quotes_of(bytes, terms),
    }
}
