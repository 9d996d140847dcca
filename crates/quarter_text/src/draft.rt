// A quarter of which some lines are read.
ghost use Rattle.std.specs.Prelude.{◌≡◌, ◌+◌, ◌-◌, ◌<◌, ◌≤◌, IfOk};
ghost use Rattle.words.specs.Lines.{words_in};
ghost use Rattle.quarter_text.specs.Drafts.{blank, finished, name_lines, name_slots, with_line, with_others};
ghost use Rattle.quarter_text.specs.Steps.{left};

use crate::fault::{Part, Problem, TextFault, WordFault};
use crate::line::{avoided_line, is_of_others, others_line, range_line, told_by, zone_net_line};
use crate::quarter::TextQuarter;
use crate::range::Range;
use source::{Row, SLOTS, Slot};
use units::{Price, ZoneNet};
use words::{Line, at_word};

/// The avoided value, as far as the lines so far say it: there is one, or there is none.
#[derive(Clone, Copy)]
pub(crate) enum AvoidedValue {
    NotYetSaid,
    Said(Option<Price>),
}

/// What the lines so far tell; a slot that none of them names is nothing yet.
#[derive(Clone, Copy)]
pub(crate) struct Draft {
    zone_net: Option<ZoneNet>,
    avoided: AvoidedValue,
    /// What a line says of the slots that no line names, if one does.
    others: Option<Slot>,
    /// The line that says it.
    line_of_others: usize,
    named: [Option<Slot>; SLOTS],
    /// Of each slot that is named, the line that names it.
    lines: [usize; SLOTS],
}

// The slots of a range are told so, unless one of them was named before, by its line in `lines`.
#[tactic(auto, using(crate::proofs::Named::named_twice))]
fn name_slots(
    named: &mut [Option<Slot>; SLOTS],
    lines: &[usize; SLOTS],
    range: Range,
    told: Slot,
) -> Result<(), WordFault>
    requires { (range.first ≤ range.last) × (range.last < SLOTS) }
    ensures { left result named.new ≡ name_slots named.old lines.now range.first (range.last + 1 - range.first) told }
{
    for slot in range.first..=range.last {
        if named[slot].is_some() {
            let line = lines[slot];
            return at_word(0, Problem::NamedTwice { slot, line });
        }
        named[slot] = Some(told);
    }
    Ok(())
}

// The slots of a range are named by this line.
fn name_lines(lines: &mut [usize; SLOTS], range: Range, line: usize)
    requires { (range.first ≤ range.last) × (range.last < SLOTS) }
    ensures { lines.new ≡ name_lines lines.old range.first (range.last + 1 - range.first) line }
{
    for slot in range.first..=range.last {
        lines[slot] = line;
    }
}

impl Draft {
    /// Before the first line.
    pub(crate) fn blank() -> Draft
        ensures { result ≡ blank }
    {
        Draft {
            zone_net: None,
            avoided: AvoidedValue::NotYetSaid,
            others: None,
            line_of_others: 0,
            named: [None; SLOTS],
            lines: [0; SLOTS],
        }
    }

    // The slots that no line names are told so by the line of this number, unless a line before told them.
    fn tell_others(&mut self, number: usize, told: Slot) -> Result<(), WordFault>
        ensures { left result self.new ≡ with_others number self.old told }
    {
        if self.others.is_some() {
            let line = self.line_of_others;
            return at_word(0, Problem::OthersTwice { line });
        }
        self.others = Some(told);
        self.line_of_others = number;
        Ok(())
    }

    /// Takes one line more, by its number; an empty one says nothing.
    pub(crate) fn take(&mut self, number: usize, line: &Line<'_>) -> Result<(), WordFault>
        ensures { left result self.new ≡ with_line number self.old (words_in line.now) }
    {
        if line.is_empty() {
            return Ok(());
        }
        match (self.zone_net, self.avoided) {
            (None, _) => self.zone_net = Some(zone_net_line(line)?),
            (Some(_), AvoidedValue::NotYetSaid) => {
                self.avoided = AvoidedValue::Said(avoided_line(line)?);
            }
            (Some(_), AvoidedValue::Said(_)) if is_of_others(line) => {
                let others = others_line(line)?;
                self.tell_others(number, others)?;
            }
            (Some(_), AvoidedValue::Said(_)) => {
                let range = range_line(line)?;
                let told = told_by(line, range)?;
                name_slots(&mut self.named, &self.lines, range, told)?;
                name_lines(&mut self.lines, range, number);
            }
        }
        Ok(())
    }

    /// The quarter, where the text has so many lines.
    pub(crate) fn finished(self, lines: usize) -> Result<TextQuarter, TextFault>
        ensures { result ≡ finished lines self.named self.others self.zone_net self.avoided }
    {
        let missing = |part| TextFault {
            line: lines,
            word: 0,
            problem: Problem::Missing(part),
        };
        let zone_net = self.zone_net.ok_or(missing(Part::Net))?;
        let AvoidedValue::Said(avoided) = self.avoided else {
            return Err(missing(Part::Avoided));
        };
        let named = self.named;
        Ok(TextQuarter {
            zone_net,
            avoided,
            others: self.others.unwrap_or(Row::idle_slot()),
            named,
        })
    }
}
