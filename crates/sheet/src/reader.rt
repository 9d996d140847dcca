// A reader of a sheet, which hands out its records one after another.
ghost use Rattle.std.specs.Prelude.{◌≡◌, ◌+◌, ◌≤◌, IfOk, length};
ghost use Rattle.source.specs.declared.slot.TheConstants.{SLOTS};

use crate::fault::{SheetFault, Spot};
use crate::head::Head;
use crate::part::Part;
use crate::slot_record::Record;
use source::SLOTS;

/// The records of a sheet from the next slot on, up to the sheet's end or first fault.
#[derive(Drop)]
pub struct Reader<'a> {
    sheet: &'a [u8],
    at: usize,
    slot: usize,
    ghost inside: { at ≤ length sheet.now },
    ghost counted: { slot ≤ SLOTS },
}

impl<'a> Reader<'a> {
    ghost use Rattle.sheet.specs.Laws.{ByRecords};
    ghost use Rattle.sheet.specs.Steps.{here};
    ghost use Rattle.sheet.specs.Readers.{left_or_fault, records_from, records_of_sheet, record_bytes, records_left, parts_of, record_or_fault};

    /// The records of a sheet of any bytes, from slot 0 on; or the first fault of its head.
    #[tactic(auto, unfolding(crate::specs::Readers::records_of_sheet))]
    pub fn of(sheet: &'a [u8]) -> Result<Reader<'a>, SheetFault>
        ensures hands_out { left_or_fault result ≡ records_of_sheet sheet.now }
        ensures by_records { IfOk result (λ r. ByRecords sheet.now (records_left r)) }
    {
        let head = Head::read(sheet)?;
        Ok(Reader::after(sheet, head))
    }

    // The records after the head.
    pub(crate) fn after(sheet: &'a [u8], head: Head) -> Reader<'a>
        requires { head.end ≤ length sheet.now }
        ensures { records_left result ≡ records_from SLOTS sheet.now 0 head.end }
    {
        Reader {
            sheet,
            at: head.end,
            slot: 0,
        }
    }

    // The record at which the reader stands, or the fault there.
    fn record(&self) -> Result<Record<'a>, SheetFault>
        ensures reads { record_or_fault result ≡ here self.now.sheet.now self.now.slot self.now.at }
        ensures within { IfOk result (λ r. self.now.at + length (record_bytes (parts_of r)) ≤ length self.now.sheet.now) }
    {
        let at = self.at;
        if self.slot == SLOTS {
            return Err(SheetFault::After { place: at });
        }
        let rest = Part {
            bytes: &self.sheet[at..],
            start: Spot {
                place: at,
                slot: self.slot,
            },
        };
        Ok(rest.record()?)
    }
}

impl<'a> Iterator for Reader<'a> {
    ghost use Rattle.std.specs.Iterator.{YieldsFirstBy, item_count};
    ghost use Rattle.sheet.specs.Readers.{records_left, record_or_fault};

    type Item = Result<Record<'a>, SheetFault>;

    ghost next_gives = { YieldsFirstBy record_or_fault records_left };

    ghost remaining = { item_count records_left };

    /// The next record; or the sheet's first fault, once; then none.
    #[tactic(auto, using(crate::proofs::Handing::left_last, crate::proofs::Handing::left_more))]
    fn next(&mut self) -> Option<Result<Record<'a>, SheetFault>> {
        if self.slot == SLOTS && self.at == self.sheet.len() {
            return None;
        }
        match self.record() {
            Ok(record) => {
                self.at += 1 + record.body().len();
                self.slot += 1;
                Some(Ok(record))
            }
            Err(fault) => {
                self.at = self.sheet.len();
                self.slot = SLOTS;
                Some(Err(fault))
            }
        }
    }
}
