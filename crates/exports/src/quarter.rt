// Five prices of one sheet, of the rulebooks alone or with the incentive component.
ghost use Rattle.std.specs.Prelude.{◌≡◌};
ghost use Rattle.exports.specs.Quarters.{IsPlainQuarter, direction_number, every_code, plain_answer, plain_quotes, refused_as};
ghost use Rattle.exports.specs.declared.plain.PlainQuarter.{PlainQuarter};
ghost use Rattle.pricing.specs.declared.codes.Terms.TheVariants.{Alone, WithIncentive};

use crate::plain::{PlainQuarter, PlainQuote};
use pricing::{FiveQuotes, Quote, QuoteDirection, QuoteFault, Terms, five_quotes};
use sheet::Sheet;
use units::Refusal;

fn number_of(direction: QuoteDirection) -> u16
    ensures { result ≡ direction_number direction }
{
    match direction {
        QuoteDirection::Up => 1,
        QuoteDirection::Down => 2,
        QuoteDirection::Avoided => 3,
    }
}

fn refused_as<F: Refusal>(fault: F) -> PlainQuote
    ensures { result ≡ refused_as (F.number fault) (F.place fault) }
{
    PlainQuote {
        refusal: fault.number(),
        direction: 0,
        place: fault.place(),
        cents: 0,
    }
}

impl From<Result<Quote, QuoteFault>> for PlainQuote {
    ghost from_gives = { λ a q. q ≡ plain_answer a };

    fn from(answer: Result<Quote, QuoteFault>) -> PlainQuote {
        match answer {
            Ok(quote) => PlainQuote {
                refusal: 0,
                direction: number_of(quote.direction),
                place: 0,
                cents: quote.price.cents(),
            },
            Err(fault) => refused_as(fault),
        }
    }
}

impl From<FiveQuotes> for PlainQuarter {
    ghost from_gives = { λ q r. r ≡ plain_quotes q };

    fn from(quotes: FiveQuotes) -> PlainQuarter {
        PlainQuarter {
            weighted_average: PlainQuote::from(quotes.weighted_average),
            combined_automatic: PlainQuote::from(quotes.combined_automatic),
            combined_all: PlainQuote::from(quotes.combined_all),
            max_min: PlainQuote::from(quotes.max_min),
            finnish: PlainQuote::from(quotes.finnish),
        }
    }
}

fn every_code(quote: PlainQuote) -> PlainQuarter
    ensures { result ≡ every_code quote }
{
    PlainQuarter {
        weighted_average: quote,
        combined_automatic: quote,
        combined_all: quote,
        max_min: quote,
        finnish: quote,
    }
}

fn quarter_of(bytes: &[u8], terms: Terms) -> PlainQuarter
    ensures answer_in_plain_numbers { IsPlainQuarter terms bytes.now result }
    ensures only_answer { (r : PlainQuarter) → IsPlainQuarter terms bytes.now r → r ≡ result }
{
    let sheet = Sheet::read(bytes);
    match sheet.check() {
        Ok(()) => PlainQuarter::from(five_quotes(&sheet, terms)),
        Err(fault) => every_code(refused_as(fault)),
    }
}

/// The quotes of a sheet of any bytes under codes 1 to 5. A refused sheet has its refusal under each code.
#[unsafe(no_mangle)]
pub extern "C" fn fumeliosa_quarter(bytes: &[u8]) -> PlainQuarter
    ensures answer_in_plain_numbers { IsPlainQuarter Alone bytes.now result }
    ensures only_answer { (r : PlainQuarter) → IsPlainQuarter Alone bytes.now r → r ≡ result }
{
    quarter_of(bytes, Terms::Alone)
}

/// The quotes of a sheet of any bytes under codes 11 to 15: the incentive component over each of codes 1 to 5. A refused
/// sheet has its refusal under each code.
#[unsafe(no_mangle)]
pub extern "C" fn fumeliosa_incentive(bytes: &[u8]) -> PlainQuarter
    ensures answer_in_plain_numbers { IsPlainQuarter WithIncentive bytes.now result }
    ensures only_answer { (r : PlainQuarter) → IsPlainQuarter WithIncentive bytes.now r → r ≡ result }
{
    quarter_of(bytes, Terms::WithIncentive)
}
