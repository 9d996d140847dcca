// A program that prints the quotes of a packed sheet under the five rulebooks and the terms.
ghost use Rattle.std.specs.Prelude.{◌≡◌, IfOk, IfSome, is_err};
ghost use Rattle.std.specs.List.{list_any};
ghost use Rattle.five_prices.specs.Statuses.{IsStatusOfSheet, status_of_answer, unreported_slot};
ghost use Rattle.figures.specs.Gathering.{FirstUnreported};
ghost use Rattle.lines.specs.Quarters.{answers_by_code};
ghost use Rattle.pricing.specs.FiveQuotes.{AreQuotesOfSource};
ghost use Rattle.pricing.specs.declared.codes.Terms.{Terms};
ghost use Rattle.source.specs.Meanings.{Meaning};

use command::{Failure, Manual, Program, Status};
use lines::{FiveLines, QuarterLines, lines_of};
use pricing::{FiveQuotes, QuoteFault, Terms};
use sheet::read_deciding;
use std::io::{Eprint, Read};
use std::rt::Runtime;

/// The program of a manual: it reads a packed sheet, and prints the line of its quote under each of the five rulebooks and
/// the terms, or that of its first fault.
#[derive(Clone, Copy)]
pub struct FivePrices<'a> {
    pub manual: Manual<'a>,
    pub terms: Terms,
}

/// The unreported slot for which the quotes are refused, if they are. They are refused for it under each rulebook alike.
pub fn unreported(quotes: &FiveQuotes) -> Option<usize>
    ensures by_the_first_answer { result ≡ unreported_slot quotes.now.weighted_average }
    ensures first_unreported { (t : Terms) (m : Meaning) → AreQuotesOfSource t m quotes.now → IfSome result (FirstUnreported m.slots) }
{
    match quotes.weighted_average {
        Err(QuoteFault::Unreported(fault)) => Some(fault.slot),
        _ => None,
    }
}

fn any_refused(lines: &FiveLines) -> bool
    ensures { result ≡ list_any is_err (answers_by_code lines.now.quotes) }
{
    lines.answers().iter().any(|answer| answer.is_err())
}

fn status_of_lines(lines: &QuarterLines, strict: bool) -> Status
    ensures { result ≡ status_of_answer strict lines.now.answer }
{
    let terms = lines.terms;
    match lines.answer {
        Err(_) => Status::Refused,
        Ok(quotes) if strict && any_refused(&FiveLines { terms, quotes }) => Status::Refused,
        Ok(_) => Status::Answered,
    }
}

impl Program for FivePrices<'_> {
    fn manual(&self) -> Manual<'_>
        ensures { result ≡ self.now.manual }
    {
        self.manual
    }

    fn answer<R: Runtime + AllocGlobal, I: Read + Drop>(
        &self,
        rt: &R,
        input: I,
        strict: bool,
    ) -> Result<Status, Failure>
        ensures status_of_the_sheet { IfOk result (λ r. IfSome (I.Read.remaining input) (λ s. IsStatusOfSheet self.now.terms strict s r)) }
    {
        let sheet = read_deciding(rt.alloc(), input).map_err(Failure::Input)?;
        let lines = lines_of(sheet.as_slice(), self.terms);
        rt.print(lines).map_err(Failure::Output)?;
        if let Ok(quotes) = lines.answer
            && let Some(slot) = unreported(&quotes)
        {
            let name = self.manual.name;
            let _ = eprintln!(rt; "{name}: slot {slot} is unreported");
        }
        Ok(status_of_lines(&lines, strict))
    }
}
