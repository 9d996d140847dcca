// A price source as plain text.
ghost use Rattle.std.specs.Prelude.{◌≡◌, ◌<◌, ◌≤◌, ◌++◌, IfOk, IsOkUnless, OnOk, Some, alloc_error};
ghost use Rattle.std.specs.String.{string_bytes};
ghost use Rattle.quarter_text.specs.Texts.{ends_run, head_text, others_of, others_text, price_text, runs_to, same_slot, shown_run, slots_text, text_of, told_text};
ghost use Rattle.quarter_text.specs.Trips.{ReadsBack, SameSheetThroughText};

use crate::product::product_word;
use crate::range::Range;
use source::{CYCLES, PriceSource, Product, Row, SLOTS, Slot, told};
use std::alloc::{AllocError, Global};
use std::fmt;
use units::{Amount, Price, ZoneNet};

/// Euros, or a `-` where there is no price.
#[derive(Clone, Copy)]
struct Euros(Option<Price>);

impl fmt::Display for Euros {
    ghost output = { λ x. Some (price_text x.0) };

    fn fmt<W: fmt::Write>(&self, f: &mut fmt::Formatter<W>) -> fmt::Result {
        match self.0 {
            Some(price) => write!(f, "{}", Amount::from(price)),
            None => write!(f, "-"),
        }
    }
}

impl fmt::Display for Range {
    ghost output = { λ x. Some (slots_text x.first x.last) };

    fn fmt<W: fmt::Write>(&self, f: &mut fmt::Formatter<W>) -> fmt::Result {
        let Range { first, last } = *self;
        match Product::try_from(first) {
            Ok(Product::Manual(product)) => write!(f, "{}", product_word(product)),
            _ if first == last => write!(f, "{first}"),
            _ => write!(f, "{first}-{last}"),
        }
    }
}

/// What is told of a slot.
#[derive(Clone, Copy)]
struct SlotText(Slot);

impl fmt::Display for SlotText {
    ghost output = { λ x. Some (told_text x.0) };

    fn fmt<W: fmt::Write>(&self, f: &mut fmt::Formatter<W>) -> fmt::Result {
        match self.0 {
            Some(reading) => {
                let kw = reading.demand.kw();
                let up = Euros(reading.up);
                let down = Euros(reading.down);
                write!(f, "{kw} {up} {down}")
            }
            None => write!(f, "unreported"),
        }
    }
}

/// The line that says that the slots that have no line are unreported; idle ones are not spoken of.
#[derive(Clone, Copy)]
struct OthersText(Slot);

impl fmt::Display for OthersText {
    ghost output = { λ x. Some (others_text x.0) };

    fn fmt<W: fmt::Write>(&self, f: &mut fmt::Formatter<W>) -> fmt::Result {
        match self.0 {
            Some(_) => Ok(()),
            None => write!(f, "others unreported\n"),
        }
    }
}

/// The lines before those of slots.
#[derive(Clone, Copy)]
struct Head {
    zone_net: ZoneNet,
    avoided: Option<Price>,
    others: Slot,
}

impl fmt::Display for Head {
    ghost output = { λ x. Some (head_text x.zone_net.kw x.avoided x.others) };

    #[tactic(auto, unfolding(crate::specs::Texts::head_text))]
    fn fmt<W: fmt::Write>(&self, f: &mut fmt::Formatter<W>) -> fmt::Result {
        let net = self.zone_net.kw();
        let avoided = Euros(self.avoided);
        let others = OthersText(self.others);
        write!(f, "net {net}\navoided {avoided}\n{others}")
    }
}

fn same_slot(a: Slot, b: Slot) -> bool
    ensures { result ≡ same_slot a b }
{
    match (a, b) {
        (Some(a), Some(b)) => a.demand == b.demand && a.up == b.up && a.down == b.down,
        (None, None) => true,
        _ => false,
    }
}

// Whether the next slot has a line of its own.
#[tactic(auto, unfolding(crate::specs::Texts::ends_run))]
fn ends_run<S: PriceSource>(source: &S, last: usize) -> bool
    requires { last < SLOTS }
    ensures { result ≡ ends_run (S.PriceSource.means source.now).slots last }
{
    last + 1 >= CYCLES || !same_slot(told(source, last), told(source, last + 1))
}

// How many runs of slots there are of which this is told.
#[tactic(auto, unfolding(crate::specs::Texts::runs_to))]
fn runs<S: PriceSource>(source: &S, slot: Slot) -> usize
    ensures counted { result ≡ runs_to (S.PriceSource.means source.now).slots slot SLOTS }
    ensures no_more_than_slots { result ≤ SLOTS }
{
    let mut runs = 0;
    for last in 0..SLOTS {
        if ends_run(source, last) && same_slot(told(source, last), slot) {
            runs += 1;
        }
    }
    runs
}

// What the slots that have no line are: whichever makes fewer lines, and idle where neither does.
fn others<S: PriceSource>(source: &S) -> Slot
    ensures { result ≡ others_of (S.PriceSource.means source.now).slots }
{
    let idle = Row::idle_slot();
    if runs(source, idle) + 1 < runs(source, None) {
        None
    } else {
        idle
    }
}

// The line of slots of which the same is told; there is none where the others are the same.
fn put_run(text: &mut String, others: Slot, range: Range, slot: Slot) -> Result<(), AllocError>
    ensures { OnOk result (string_bytes text.new ≡ string_bytes text.old ++ shown_run others range.first range.last slot) }
{
    if same_slot(slot, others) {
        return Ok(());
    }
    write!(text, "{range} {}\n", SlotText(slot))
}

/// The text of a source: its zone net, its avoided value, and the slots that are not idle; or those that are not
/// unreported, where that makes fewer lines, after a line that says so. Only want of memory refuses it.
#[tactic(auto, using(crate::proofs::TextTrips::same_sheet, crate::proofs::Printed::all_printed))]
pub fn quarter_text<S: PriceSource>(heap: Global, source: &S) -> Result<String, AllocError>
    ensures prints { IfOk result (λ t. string_bytes t ≡ text_of (S.PriceSource.means source.now)) }
    ensures only_memory_refuses { IsOkUnless result alloc_error }
    ensures reads_back { ReadsBack (S.PriceSource.means source.now) }
    ensures same_sheet { SameSheetThroughText (S.PriceSource.means source.now) }
{
    let others = others(source);
    let head = Head {
        zone_net: source.zone_net(),
        avoided: source.avoided(),
        others,
    };
    let mut text = format!(in heap; "{head}")?;
    let mut first = 0;
    for last in 0..SLOTS {
        if ends_run(source, last) {
            put_run(&mut text, others, Range { first, last }, told(source, last))?;
            first = last + 1;
        }
    }
    Ok(text)
}
