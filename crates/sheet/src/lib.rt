// A packed sheet of one quarter hour: bytes that are read, checked and asked as a price source.
#![tactic(auto)]

mod fault;
mod head;
mod input;
mod length;
mod number;
mod part;
mod reader;
mod sheet;
mod slot_record;

pub use fault::{HEAD, NumberFault, RecordFault, SheetFault, Spot};
pub use head::{Head, OPENING};
pub use input::{DECIDING_BYTES, deciding, read_deciding};
pub use length::{AVOIDED_BYTES, HEAD_BYTES, NUMBER_BYTES, RECORD_BYTES, SHEET_BYTES};
pub use reader::Reader;
pub use sheet::Sheet;
pub use slot_record::Record;
