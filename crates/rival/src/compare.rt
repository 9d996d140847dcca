// Both calculations of one sheet, side by side.
use crate::answers::{Answer, Answers};
use crate::outcome::{Effect, Outcome};
use crate::plain::{DEMAND, PRICE, Plain, Quarter, UNREPORTED, ZONE_NET, is_within};
use crate::reader::{Told, read};
use crate::rules::{REFERENCE, RULES, Rules};
use crate::writer::sheet_of;
use lines::lines_of;
use pricing::{CombinedAll, CombinedAutomatic, Finnish, MaxMin, Rulebook, Terms, WeightedAverage};
use quarter_tests::Referenced;
use sheet::Sheet;
use source::{NettingFill, Row, Table};
use std::alloc::{AllocError, Global};
use units::{Price, Quantity, ZoneNet};
use writing::sheet_vec;

/// The printed lines of both under the same terms.
#[derive(Drop)]
pub(crate) struct Printed {
    pub rival: String,
    pub library: String,
}

/// Both calculations of one sheet, and what became of it.
#[derive(Drop)]
pub(crate) struct Both {
    /// Codes 1 to 5.
    pub alone: Printed,
    /// Codes 11 to 15.
    pub with_incentive: Printed,
    pub told_alike: bool,
    pub quotes_alike: bool,
    pub outcome: Outcome,
    pub effect: Effect,
}

impl Printed {
    pub(crate) fn agree(&self) -> bool {
        self.rival == self.library
    }
}

impl Both {
    pub(crate) fn agree(&self) -> bool {
        let lines = self.alone.agree() && self.with_incentive.agree();
        lines && self.told_alike && self.quotes_alike
    }
}

fn rival_lines(heap: Global, told: &Told, incentives: u16) -> Result<String, AllocError> {
    if let Err(fault) = told.check {
        return format!(in heap; "! {} {}\n", fault.refusal.number(), fault.place);
    }
    let mut text = String::new(heap);
    for rules in RULES.iter().copied() {
        writeln!(
            text,
            "{}",
            Answer::rival(&told.quarter, rules.under(incentives))
        )?;
    }
    Ok(text)
}

fn lines_under(
    heap: Global,
    bytes: &[u8],
    told: &Told,
    terms: Terms,
) -> Result<Printed, AllocError> {
    let incentives = match terms {
        Terms::Alone => 0,
        Terms::WithIncentive => 1,
    };
    let lines = lines_of(bytes, terms);
    Ok(Printed {
        rival: rival_lines(heap, told, incentives)?,
        library: format!(in heap; "{lines}")?,
    })
}

// Under one rulebook: code, direction and cents, or number and place of the refusal, with incentive components and without.
fn same_answers<R: Rulebook + Clone + Copy + Drop>(
    sheet: &Sheet<'_>,
    quarter: &Quarter,
    rulebook: R,
    rules: Rules,
) -> bool {
    Answers::new(sheet, quarter, rulebook, rules.under(0)).agree()
}

fn same_quotes(sheet: &Sheet<'_>, quarter: &Quarter) -> bool {
    let outside = |reference| same_answers(
        sheet,
        quarter,
        Referenced { reference },
        Rules::Referenced,
    );
    same_answers(sheet, quarter, WeightedAverage, Rules::WeightedAverage)
        && same_answers(sheet, quarter, CombinedAutomatic, Rules::CombinedAutomatic)
        && same_answers(sheet, quarter, CombinedAll, Rules::CombinedAll)
        && same_answers(sheet, quarter, MaxMin, Rules::MaxMin)
        && same_answers(sheet, quarter, Finnish, Rules::Finnish)
        && Price::new(REFERENCE).is_ok_and(outside)
}

// Whether what a sheet tells is the same, as it is and under the netting fill: both are written and compared.
// An accepted sheet is written as it was.
fn same_told(
    heap: Global,
    sheet: Sheet<'_>,
    bytes: &[u8],
    read: &Told,
) -> Result<bool, AllocError> {
    let quarter = &read.quarter;
    let told = sheet_vec(heap, &sheet)?;
    let plain = sheet_of(heap, quarter)?;
    let kept = read.check.is_err() || plain.as_slice() == bytes;
    let filled = sheet_vec(heap, &NettingFill { below: sheet })?;
    let netted = sheet_of(heap, &quarter.netted())?;
    Ok(kept && told == plain && filled == netted)
}

/// Both calculations of a sheet.
pub(crate) fn compare_sheet(heap: Global, bytes: &[u8]) -> Result<Both, AllocError> {
    let told = read(bytes);
    let sheet = Sheet::read(bytes);
    Ok(Both {
        alone: lines_under(heap, bytes, &told, Terms::Alone)?,
        with_incentive: lines_under(heap, bytes, &told, Terms::WithIncentive)?,
        quotes_alike: same_quotes(&sheet, &told.quarter),
        told_alike: same_told(heap, sheet, bytes, &told)?,
        outcome: Outcome::of(&told),
        effect: Effect::of(&told),
    })
}

fn is_bounded(slot: &Plain) -> bool {
    slot.kw.is_none_or(|kw| is_within(kw, DEMAND))
        && slot.up.is_none_or(|cents| is_within(cents, PRICE))
        && slot.down.is_none_or(|cents| is_within(cents, PRICE))
}

// A table has no form for an unreported row but a number out of bounds.
impl From<Plain> for Row {
    fn from(slot: Plain) -> Row {
        Row {
            demand: slot.kw.unwrap_or(i64::MIN),
            up: slot.up,
            down: slot.down,
        }
    }
}

/// Whether a table of the quarter's numbers, written, is the sheet of its slots that are in bounds.
pub(crate) fn same_table(heap: Global, quarter: &Quarter) -> Result<bool, AllocError> {
    let rows = quarter.slots.map(Row::from);
    let table = Table {
        rows: &rows,
        zone_net: ZoneNet::new(quarter.zone_net).unwrap_or(ZoneNet::zero()),
        avoided: quarter.avoided.and_then(|cents| Price::new(cents).ok()),
    };
    // A slot with a number out of bounds is unreported in a table.
    let own = Quarter {
        slots: quarter
            .slots
            .map(|slot| if is_bounded(&slot) { slot } else { UNREPORTED }),
        zone_net: if is_within(quarter.zone_net, ZONE_NET) {
            quarter.zone_net
        } else {
            0
        },
        avoided: quarter.avoided.filter(|cents| is_within(*cents, PRICE)),
    };
    let written = sheet_vec(heap, &table)?;
    let plain = sheet_of(heap, &own)?;
    Ok(written == plain)
}
