// The numbers of a sheet, written.
ghost use Rattle.std.specs.Prelude.{◌≡◌, ◌+◌, ◌^◌, ◌<◌, ◌≤◌, ◌++◌};
ghost use Rattle.arrayvec.specs.ArrayVec.{array_vec_len};
ghost use Rattle.writing.specs.Bytes.{folded, groups_of, number_bytes};
ghost use Rattle.sheet.specs.declared.length.TheConstants.{NUMBER_BYTES, SHEET_BYTES};

use arrayvec::ArrayVec;
use sheet::SHEET_BYTES;
use units::Quantity;

/// The bytes of a sheet so far.
pub(crate) type SheetBytes = ArrayVec<u8, SHEET_BYTES>;

fn folded<Q: Quantity>(quantity: Q) -> u32
    ensures stored { result ≡ folded (Q.number_of quantity) }
    ensures in_four_groups { result < 2 ^ 28 }
{
    let number = quantity.number();
    if number >= 0 {
        2 * number as u32
    } else {
        (2 * number.unsigned_abs() - 1) as u32
    }
}

// Groups of seven bits, lowest first: 128 is 2 ^ 7, 16384 is 2 ^ 14 and 2097152 is 2 ^ 21.
fn put_groups(out: &mut SheetBytes, stored: u32)
    requires in_four_groups { stored < 2 ^ 28 }
    requires room { array_vec_len out.old + NUMBER_BYTES ≤ SHEET_BYTES }
    ensures bytes { out.new.items ≡ out.old.items ++ groups_of stored }
    ensures len { array_vec_len out.new ≤ array_vec_len out.old + NUMBER_BYTES }
{
    if stored < 128 {
        out.push(stored as u8);
        return;
    }
    out.push((stored % 128 + 128) as u8);
    if stored < 16384 {
        out.push((stored / 128) as u8);
        return;
    }
    out.push((stored / 128 % 128 + 128) as u8);
    if stored < 2097152 {
        out.push((stored / 16384) as u8);
        return;
    }
    out.push((stored / 16384 % 128 + 128) as u8);
    out.push((stored / 2097152) as u8);
}

#[tactic(auto, unfolding(crate::specs::Bytes::number_bytes))]
pub(crate) fn put_quantity<Q: Quantity>(out: &mut SheetBytes, quantity: Q)
    requires { array_vec_len out.old + NUMBER_BYTES ≤ SHEET_BYTES }
    ensures bytes { out.new.items ≡ out.old.items ++ number_bytes (Q.number_of quantity) }
    ensures len { array_vec_len out.new ≤ array_vec_len out.old + NUMBER_BYTES }
{
    put_groups(out, folded(quantity));
}
