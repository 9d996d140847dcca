// What the words of a line say.
ghost use Rattle.std.specs.Prelude.{◌≡◌, ◌<◌, ◌≤◌, IfOk};
ghost use Rattle.units.specs.Quantities.{demand_of};
ghost use Rattle.words.specs.Lines.{words_in};
ghost use Rattle.quarter_text.specs.Lines.{avoided_line, energy_at, is_of_others, others_line, price_at, prices_after, quantity_at, range_line, told_by, zone_net_line};
ghost use Rattle.quarter_text.specs.declared.fault.Part.TheVariants as part;

use crate::energy::power;
use crate::fault::Problem::Expected;
use crate::fault::{Part, WordFault, in_bounds};
use crate::range::Range;
use source::{Reading, SLOTS, Slot};
use units::{Demand, Price, Quantity, ZoneNet};
use words::{Line, Places};

fn price_at(line: &Line<'_>, at: usize, part: Part) -> Result<Option<Price>, WordFault>
    ensures { result ≡ price_at (words_in line.now) at part }
{
    if line.has(at, b"-") {
        return Ok(None);
    }
    let numeral = line.numeral(at, Places::Two, Expected(part))?;
    Ok(Some(in_bounds(at, Price::new(numeral.value()))?))
}

/// The line of the zone net.
pub(crate) fn zone_net_line(line: &Line<'_>) -> Result<ZoneNet, WordFault>
    ensures { result ≡ zone_net_line (words_in line.now) }
{
    line.keyword(0, b"net", Expected(Part::Net))?;
    let numeral = line.numeral(1, Places::Whole, Expected(Part::ZoneNet))?;
    let zone_net = in_bounds(1, ZoneNet::new(numeral.value()))?;
    line.end(2, Expected(Part::End))?;
    Ok(zone_net)
}

/// The line of the avoided value.
pub(crate) fn avoided_line(line: &Line<'_>) -> Result<Option<Price>, WordFault>
    ensures { result ≡ avoided_line (words_in line.now) }
{
    line.keyword(0, b"avoided", Expected(Part::Avoided))?;
    let avoided = price_at(line, 1, Part::AvoidedValue)?;
    line.end(2, Expected(Part::End))?;
    Ok(avoided)
}

/// Whether the line is of the slots that no line names.
pub(crate) fn is_of_others(line: &Line<'_>) -> bool
    ensures { result ≡ is_of_others (words_in line.now) }
{
    line.has(0, b"others")
}

/// What the line of those slots says of each of them.
pub(crate) fn others_line(line: &Line<'_>) -> Result<Slot, WordFault>
    ensures { result ≡ others_line (words_in line.now) }
{
    line.keyword(1, b"unreported", Expected(Part::Unreported))?;
    line.end(2, Expected(Part::End))?;
    Ok(None)
}

/// The slots that a line names.
pub(crate) fn range_line(line: &Line<'_>) -> Result<Range, WordFault>
    ensures reads { result ≡ range_line (words_in line.now) }
    ensures within { IfOk result (λ r. (r.first ≤ r.last) × (r.last < SLOTS)) }
{
    Range::of(line.word(0, Expected(Part::Slots))?)
}

fn demand_at(line: &Line<'_>, at: usize) -> Result<Demand, WordFault>
    ensures { result ≡ quantity_at demand_of (words_in line.now) at 0 part.Demand }
{
    let numeral = line.numeral(at, Places::Whole, Expected(Part::Demand))?;
    in_bounds(at, Demand::new(numeral.value()))
}

// The demand in each slot of energy over these.
fn energy_at(line: &Line<'_>, at: usize, range: Range) -> Result<Demand, WordFault>
    requires { (range.first ≤ range.last) × (range.last < SLOTS) }
    ensures { result ≡ energy_at (words_in line.now) at range }
{
    let energy = line.numeral(at, Places::Three, Expected(Part::Demand))?;
    power(at, range, energy)
}

// A demand, and the two prices from the word `at` to the line's end.
fn prices_after(line: &Line<'_>, at: usize, demand: Demand) -> Result<Slot, WordFault>
    requires { at ≤ 3 }
    ensures { result ≡ prices_after (words_in line.now) at demand }
{
    let up = price_at(line, at, Part::UpPrice)?;
    let down = price_at(line, at + 1, Part::DownPrice)?;
    line.end(at + 2, Expected(Part::End))?;
    Ok(Some(Reading { demand, up, down }))
}

/// What the line says of each of its slots.
pub(crate) fn told_by(line: &Line<'_>, range: Range) -> Result<Slot, WordFault>
    requires { (range.first ≤ range.last) × (range.last < SLOTS) }
    ensures { result ≡ told_by (words_in line.now) range }
{
    if line.has(1, b"unreported") {
        line.end(2, Expected(Part::End))?;
        return Ok(None);
    }
    if line.has(2, b"MWh") {
        return prices_after(line, 3, energy_at(line, 1, range)?);
    }
    prices_after(line, 2, demand_at(line, 1)?)
}
