// The lines of a sheet's records.
ghost use Rattle.std.specs.Prelude.{Some};
ghost use Rattle.lines.specs.Records.{body_text, handed_text, hex_text, records_text};
ghost use Rattle.sheet.specs.Readers.{record_or_fault};

use sheet::{Reader, Record, SheetFault};
use std::fmt;

/// A byte as two hexadecimal digits.
#[derive(Clone, Copy)]
struct HexByte(u8);

impl fmt::Display for HexByte {
    ghost output = { λ x. Some (hex_text x.0) };

    #[tactic(auto, using(crate::proofs::Hex::digit_written))]
    fn fmt<W: fmt::Write>(&self, f: &mut fmt::Formatter<W>) -> fmt::Result {
        let high = self.0 / 16;
        let low = self.0 % 16;
        write!(f, "{high:x}{low:x}")
    }
}

/// Bytes in hexadecimal, or a `-` where there are none.
#[derive(Clone, Copy)]
struct Body<'a>(&'a [u8]);

impl fmt::Display for Body<'_> {
    ghost output = { λ x. Some (body_text x.0.now) };

    fn fmt<W: fmt::Write>(&self, f: &mut fmt::Formatter<W>) -> fmt::Result {
        if self.0.is_empty() {
            return write!(f, "-");
        }
        for byte in self.0 {
            write!(f, "{}", HexByte(*byte))?;
        }
        Ok(())
    }
}

/// The line of what a reader hands out for a slot: the slot, the record's place, its lead byte and the bytes after that; or
/// the fault's number and place.
#[derive(Clone, Copy)]
pub struct RecordLine<'a> {
    pub slot: usize,
    pub handed: Result<Record<'a>, SheetFault>,
}

impl fmt::Display for RecordLine<'_> {
    ghost output = { λ x. Some (handed_text x.slot (record_or_fault x.handed)) };

    fn fmt<W: fmt::Write>(&self, f: &mut fmt::Formatter<W>) -> fmt::Result {
        match self.handed {
            Ok(record) => {
                let slot = self.slot;
                let place = record.place();
                let lead = record.lead();
                let body = Body(record.body());
                write!(f, "{slot} {place} {lead} {body}\n")
            }
            Err(fault) => write!(f, "{fault}\n"),
        }
    }
}

/// A sheet of any bytes by its records: a line for each, and then that of its first fault, if it has one.
#[derive(Clone, Copy)]
pub struct RecordLines<'a> {
    pub sheet: &'a [u8],
}

impl fmt::Display for RecordLines<'_> {
    ghost output = { λ x. Some (records_text x.sheet.now) };

    fn fmt<W: fmt::Write>(&self, f: &mut fmt::Formatter<W>) -> fmt::Result {
        let records = match Reader::of(self.sheet) {
            Ok(records) => records,
            Err(fault) => return write!(f, "{fault}\n"),
        };
        let mut slot = 0;
        for handed in records {
            write!(f, "{}", RecordLine { slot, handed })?;
            slot += 1;
        }
        Ok(())
    }
}
