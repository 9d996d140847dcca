// The record of one slot.
ghost use Rattle.std.specs.Prelude.{◌≡◌, ◌+◌, ◌≤◌, ◌∷◌, length, IfOk};
ghost use Rattle.sheet.specs.Records.{by_lead, demand_and_price};
ghost use Rattle.sheet.specs.Readers.{record_at, record_bytes, parts_of, record_telling};
ghost use Rattle.sheet.specs.Steps.{parts_read};

use crate::fault::{NumberFault, RecordFault, Spot};
use crate::part::Part;
use source::{Reading, Slot};
use units::{Demand, Price};

/// A slot as the sheet has it: by its lead byte, with what it tells, the bytes after the lead byte, and the place of the
/// lead byte.
#[derive(Clone, Copy)]
pub enum Record<'a> {
    Unreported {
        place: usize,
    },
    Demand {
        demand: Demand,
        body: &'a [u8],
        place: usize,
    },
    Up {
        demand: Demand,
        up: Price,
        body: &'a [u8],
        place: usize,
    },
    Down {
        demand: Demand,
        down: Price,
        body: &'a [u8],
        place: usize,
    },
    Both {
        demand: Demand,
        up: Price,
        down: Price,
        body: &'a [u8],
        place: usize,
    },
}

impl<'a> Record<'a> {
    /// What the record tells of its slot.
    pub fn slot(self) -> Slot
        ensures { result ≡ (parts_of self.entry).tells }
    {
        let (demand, up, down) = match self {
            Record::Unreported { .. } => return None,
            Record::Demand { demand, .. } => (demand, None, None),
            Record::Up { demand, up, .. } => (demand, Some(up), None),
            Record::Down { demand, down, .. } => (demand, None, Some(down)),
            Record::Both {
                demand,
                up,
                down,
                ..
            } => (demand, Some(up), Some(down)),
        };
        Some(Reading { demand, up, down })
    }

    /// The byte that says which kind of record it is.
    pub fn lead(self) -> u8
        ensures { result ≡ (parts_of self.entry).lead }
    {
        match self {
            Record::Unreported { .. } => 0,
            Record::Demand { .. } => 1,
            Record::Up { .. } => 2,
            Record::Down { .. } => 3,
            Record::Both { .. } => 4,
        }
    }

    /// The bytes after the lead byte.
    pub fn body(self) -> &'a [u8]
        ensures { result.now ≡ (parts_of self.entry).body }
    {
        match self {
            Record::Unreported { .. } => &[],
            Record::Demand { body, .. }
            | Record::Up { body, .. }
            | Record::Down { body, .. }
            | Record::Both { body, .. } => body,
        }
    }

    /// The place of the lead byte among the sheet's bytes.
    pub fn place(self) -> usize
        ensures { result ≡ (parts_of self.entry).place }
    {
        match self {
            Record::Unreported { place }
            | Record::Demand { place, .. }
            | Record::Up { place, .. }
            | Record::Down { place, .. }
            | Record::Both { place, .. } => place,
        }
    }
}

impl<'a> Part<'a> {
    // A demand and the price after it, and where they end.
    #[inline(always)]
    #[tactic(auto, unfolding(crate::specs::Records::demand_and_price))]
    fn demand_and_price(&self) -> Result<(Demand, Price, usize), NumberFault>
        ensures reads { result ≡ demand_and_price self.now.start self.now.bytes.now }
        ensures within { IfOk result (λ p. p.2 ≤ length self.now.bytes.now) }
    {
        let (demand, n) = self.quantity(0)?;
        let (price, end) = self.quantity(n)?;
        Ok((demand, price, end))
    }

    // The record of the lead byte 4 at `at`, whose numbers these are.
    #[inline(always)]
    #[tactic(auto, unfolding(crate::specs::Records::by_lead))]
    fn both(&self, at: Spot) -> Result<Record<'a>, RecordFault>
        ensures reads { parts_read result ≡ record_telling at (4 ∷ self.now.bytes.now) (by_lead at self.now.start 4 self.now.bytes.now) }
        ensures within { IfOk result (λ r. length (record_bytes (parts_of r)) ≤ 1 + length self.now.bytes.now) }
    {
        let (demand, up, n) = self.demand_and_price()?;
        let (down, end) = self.quantity(n)?;
        Ok(Record::Both {
            demand,
            up,
            down,
            body: &self.bytes[..end],
            place: at.place,
        })
    }

    // The record of the lead byte at `at`, whose numbers these are.
    #[inline(always)]
    #[tactic(auto, unfolding(crate::specs::Records::by_lead))]
    fn led_by(&self, lead: u8, at: Spot) -> Result<Record<'a>, RecordFault>
        ensures reads { parts_read result ≡ record_telling at (lead ∷ self.now.bytes.now) (by_lead at self.now.start lead self.now.bytes.now) }
        ensures within { IfOk result (λ r. length (record_bytes (parts_of r)) ≤ 1 + length self.now.bytes.now) }
    {
        let place = at.place;
        match lead {
            0 => Ok(Record::Unreported { place }),
            1 => {
                let (demand, end) = self.quantity(0)?;
                Ok(Record::Demand {
                    demand,
                    body: &self.bytes[..end],
                    place,
                })
            }
            2 => {
                let (demand, up, end) = self.demand_and_price()?;
                Ok(Record::Up {
                    demand,
                    up,
                    body: &self.bytes[..end],
                    place,
                })
            }
            3 => {
                let (demand, down, end) = self.demand_and_price()?;
                Ok(Record::Down {
                    demand,
                    down,
                    body: &self.bytes[..end],
                    place,
                })
            }
            4 => self.both(at),
            _ => Err(RecordFault::Lead(at)),
        }
    }

    // The record at the front.
    #[tactic(auto, using(crate::proofs::Leads::slot_led))]
    pub(crate) fn record(&self) -> Result<Record<'a>, RecordFault>
        ensures reads { parts_read result ≡ record_at self.now.start self.now.bytes.now }
        ensures within { IfOk result (λ r. length (record_bytes (parts_of r)) ≤ length self.now.bytes.now) }
    {
        let [lead, rest @ ..] = self.bytes else {
            return Err(RecordFault::Ends(self.start));
        };
        let numbers = Part {
            bytes: rest,
            start: Spot {
                place: self.start.place + 1,
                slot: self.start.slot,
            },
        };
        numbers.led_by(*lead, self.start)
    }
}
