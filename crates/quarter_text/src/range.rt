// The slots that a word names.
ghost use Rattle.std.specs.Prelude.{◌≡◌, ◌*◌, ◌<◌, ◌≤◌, IfOk, ◌==◌};
ghost use Rattle.std.specs.List.{position};
ghost use Rattle.words.specs.Marks.{dash};
ghost use Rattle.quarter_text.specs.Ranges.{numbered, range_of, slot_of, slots_from_to, weight_of_range};

use crate::fault::{Part, Problem, WordFault};
use crate::product::product_named;
use source::{CYCLES, SLOTS, weight_of};
use words::{at_word, digits, first_at};

/// The slots from the first to the last.
#[derive(Clone, Copy)]
pub(crate) struct Range {
    pub(crate) first: usize,
    pub(crate) last: usize,
}

impl Range {
    /// The slots that a word names.
    pub(crate) fn of(word: &[u8]) -> Result<Range, WordFault>
        ensures reads { result ≡ range_of word.now }
        ensures within { IfOk result (λ r. (r.first ≤ r.last) × (r.last < SLOTS)) }
    {
        match product_named(word) {
            Some(product) => Ok(Range::one(product.slot())),
            None => numbered(word),
        }
    }

    fn one(slot: usize) -> Range
        ensures { result ≡ slots_from_to slot slot }
    {
        Range {
            first: slot,
            last: slot,
        }
    }

    // The weights of the slots.
    pub(crate) fn weight(self) -> u64
        requires { (self.first ≤ self.last) × (self.last < SLOTS) }
        ensures weighs { result ≡ weight_of_range self }
        ensures low { 1 ≤ result }
        ensures high { result ≤ SLOTS * CYCLES }
    {
        let mut weight = 0;
        for slot in self.first..=self.last {
            weight += weight_of(slot);
        }
        weight
    }
}

fn slot_of(word: &[u8]) -> Result<usize, WordFault>
    ensures reads { result ≡ slot_of word.now }
    ensures within { IfOk result (λ k. k < SLOTS) }
{
    let slot = digits(word).ok_or(WordFault {
        word: 0,
        problem: Problem::Expected(Part::Slots),
    })?;
    if slot >= SLOTS as u64 {
        return at_word(0, Problem::NoSuchSlot);
    }
    Ok(slot as usize)
}

// A slot, or the first and the last of a range.
fn numbered(word: &[u8]) -> Result<Range, WordFault>
    ensures reads { result ≡ numbered word.now (position (λ b. b == dash) word.now) }
    ensures within { IfOk result (λ r. (r.first ≤ r.last) × (r.last < SLOTS)) }
{
    let Some(dash) = first_at(word, b'-') else {
        return Ok(Range::one(slot_of(word)?));
    };
    let first = slot_of(&word[..dash])?;
    let last = slot_of(&word[dash + 1..])?;
    if first > last {
        return at_word(0, Problem::BackwardRange);
    }
    Ok(Range { first, last })
}
