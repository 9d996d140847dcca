// A slot, written: its lead byte, its demand and the prices formed for it.
ghost use Rattle.std.specs.Prelude.{◌≡◌, ◌+◌, ◌≤◌, ◌++◌};
ghost use Rattle.arrayvec.specs.ArrayVec.{array_vec_len};
ghost use Rattle.sheet.specs.Records.{lead_byte};
ghost use Rattle.writing.specs.Bytes.{avoided_bytes, price_bytes, reading_bytes, slot_bytes};
ghost use Rattle.sheet.specs.declared.length.TheConstants.{AVOIDED_BYTES, NUMBER_BYTES, RECORD_BYTES, SHEET_BYTES};

use crate::number::{SheetBytes, put_quantity};
use source::{Reading, Slot};
use units::Price;

fn lead_of(up: Option<Price>, down: Option<Price>) -> u8
    ensures { result ≡ lead_byte up down }
{
    match (up, down) {
        (None, None) => 1,
        (Some(_), None) => 2,
        (None, Some(_)) => 3,
        (Some(_), Some(_)) => 4,
    }
}

fn put_price(out: &mut SheetBytes, price: Option<Price>)
    requires { array_vec_len out.old + NUMBER_BYTES ≤ SHEET_BYTES }
    ensures bytes { out.new.items ≡ out.old.items ++ price_bytes price }
    ensures len { array_vec_len out.new ≤ array_vec_len out.old + NUMBER_BYTES }
{
    if let Some(price) = price {
        put_quantity(out, price);
    }
}

pub(crate) fn put_avoided(out: &mut SheetBytes, avoided: Option<Price>)
    requires { array_vec_len out.old + AVOIDED_BYTES ≤ SHEET_BYTES }
    ensures bytes { out.new.items ≡ out.old.items ++ avoided_bytes avoided }
    ensures len { array_vec_len out.new ≤ array_vec_len out.old + AVOIDED_BYTES }
{
    match avoided {
        Some(price) => {
            out.push(1);
            put_quantity(out, price);
        }
        None => out.push(0),
    }
}

fn put_reading(out: &mut SheetBytes, reading: Reading)
    requires { array_vec_len out.old + RECORD_BYTES ≤ SHEET_BYTES }
    ensures bytes { out.new.items ≡ out.old.items ++ reading_bytes reading }
    ensures len { array_vec_len out.new ≤ array_vec_len out.old + RECORD_BYTES }
{
    out.push(lead_of(reading.up, reading.down));
    put_quantity(out, reading.demand);
    put_price(out, reading.up);
    put_price(out, reading.down);
}

pub(crate) fn put_slot(out: &mut SheetBytes, slot: Slot)
    requires { array_vec_len out.old + RECORD_BYTES ≤ SHEET_BYTES }
    ensures bytes { out.new.items ≡ out.old.items ++ slot_bytes slot }
    ensures len { array_vec_len out.new ≤ array_vec_len out.old + RECORD_BYTES }
{
    match slot {
        None => out.push(0),
        Some(reading) => put_reading(out, reading),
    }
}
