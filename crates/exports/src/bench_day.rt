// A day in the book, to measure what a day costs: quarters priced from their sheets, parties metered with values that
// are made up here, settled, one late value, and settled again.
ghost use Rattle.std.specs.Prelude.{◌≡◌, ℕ, ◌<◌, ◌≤◌, false, count_by, length, unsigned_abs};
ghost use Rattle.exports.specs.BenchDays.{Buffers, DayOf, QuartersOf, has_price, meter_values, metered_all, not_started, payments_over, settled_first};
ghost use Rattle.exports.specs.steps.DayBooks.{IsSameKnown, quarters_in};
ghost use Rattle.settlement.specs.Books.{IsFresh, in_book, quarter_at};
ghost use Rattle.settlement.specs.Changes.{SameCounts};
ghost use Rattle.settlement.specs.Events.{metering};
ghost use Rattle.settlement.specs.Promises.{IsSoundCall};
ghost use Rattle.settlement.specs.Standings.{is_closed};
ghost use Rattle.settlement.specs.Starting.{count_fault};
ghost use Rattle.settlement.specs.declared.book.TheConstants.{MOST_PERIODS, MOST_PARTIES};

use crate::plain::PlainDay;
use metering::{Imbalance, MeterValues};
use pricing::{Finnish, Rulebook};
use settlement::{Book, BookFault, CountFault};
use sheet::Sheet;
use units::Refusal;

// Prices each quarter from its own sheet, from no bytes where its places are none of the sheets', and answers how many
// have a price.
fn price_all(book: &mut Book, sheets: &[u8], ends: &[usize]) -> usize
    requires fresh { IsFresh book.old }
    requires count { book.old.period_count ≡ length ends.now }
    ensures quarters { QuartersOf sheets.now ends.now (quarters_in book.new) }
    ensures parties { book.new.parties ≡ book.old.parties }
    ensures counts { SameCounts book.old book.new }
    ensures priced { result ≡ count_by has_price (quarters_in book.new) }
{
    let mut priced = 0;
    let mut start = 0;
    for (period, end) in ends.iter().enumerate() {
        let sheet = Sheet::read(sheets.get(start..*end).unwrap_or(&[]));
        if book.price(period, &sheet, &Finnish).is_ok() {
            priced += 1;
        }
        start = *end;
    }
    priced
}

// Meters values of plain numbers, made from the period and the party. Answers as the book does.
fn meter(book: &mut Book, period: usize, party: usize, late: i64) -> Result<Imbalance, BookFault>
    requires period { period < MOST_PERIODS }
    requires party { party < MOST_PARTIES }
    requires late { unsigned_abs late ≤ 1_000 }
    ensures { IsSoundCall (metering period party (meter_values period party late) result) book.old book.new }
{
    let (p, q) = (period as i64, party as i64);
    let values = MeterValues {
        schedules: &[13 * p - 900, 7 * q - 350],
        allocated: 11 * p - 23 * q - 1_262 + late,
        adjustment: q - 16,
    };
    book.meter(period, party, &values)
}

fn meter_all(book: &mut Book, periods: usize, parties: usize)
    requires periods { book.old.period_count ≡ periods }
    requires parties { book.old.party_count ≡ parties }
    requires open { (p : ℕ) → p < book.old.period_count → is_closed (quarter_at book.old p) ≡ false }
    ensures { IsSameKnown (in_book book.new) (metered_all (in_book book.old)) }
{
    for period in 0..periods {
        for party in 0..parties {
            let _ = meter(book, period, party, 0);
        }
    }
}

// Settles each party that has a place for its payment.
fn settle_all(book: &mut Book, payments: &mut [i64])
    ensures payments { payments.new ≡ payments_over (in_book book.old) payments.old }
    ensures book { IsSameKnown (in_book book.new) (settled_first (length payments.old) (in_book book.old)) }
{
    for (party, payment) in payments.iter_mut().enumerate() {
        if let Ok(paid) = book.settle(party) {
            *payment = paid.cents;
        }
    }
}

impl From<CountFault> for PlainDay {
    ghost from_gives = { λ f d. d ≡ not_started f };

    fn from(fault: CountFault) -> PlainDay {
        PlainDay {
            started: false,
            refusal: fault.number(),
            place: fault.place(),
            priced: 0,
        }
    }
}

/// A day for the bench, of as many quarters as `ends` has places: it measures the work of a day, and its meter values
/// are nobody's. The sheet of a quarter ends where `ends` says, and begins where the one before ends. What the
/// parties are paid first and after the late value is put to `first` and `second`, whose places past the parties are
/// left as they were; both are, where no book is started.
#[unsafe(no_mangle)]
pub extern "C" fn fumeliosa_bench_day(
    sheets: &[u8],
    ends: &[usize],
    parties: usize,
    first: &mut [i64],
    second: &mut [i64],
) -> PlainDay
    ensures { let before : Buffers = record { first = first.old; second = second.old } in let after : Buffers = record { first = first.new; second = second.new } in DayOf (count_fault (length ends.now) parties) sheets.now ends.now parties before after result }
{
    let mut book = match Book::start(ends.len(), parties) {
        Ok(book) => book,
        Err(fault) => return PlainDay::from(fault),
    };
    let priced = price_all(&mut book, sheets, ends);
    meter_all(&mut book, ends.len(), parties);
    settle_all(&mut book, first);
    let _ = meter(&mut book, ends.len() - 1, 0, 65);
    settle_all(&mut book, second);
    PlainDay {
        started: true,
        refusal: 0,
        place: 0,
        priced,
    }
}
