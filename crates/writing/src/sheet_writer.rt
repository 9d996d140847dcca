// A whole sheet, written from any source.
ghost use Rattle.std.specs.Prelude.{◌≡◌, [], length, IfOk, IsOkUnless, alloc_error};
ghost use Rattle.writing.specs.Bytes.{sheet_bytes};
ghost use Rattle.writing.specs.Trips.{SameBytes, TellsBack};
ghost use Rattle.writing.specs.Writes.{left, written};

use crate::number::{SheetBytes, put_quantity};
use crate::short_buffer::ShortBuffer;
use crate::slot_writer::{put_avoided, put_slot};
use sheet::OPENING;
use source::{PriceSource, SLOTS, told};
use std::alloc::{AllocError, Global};

// Puts a sheet where its caller keeps it: one that is handed out is zeroed and copied at each hand.
fn put_sheet<S: PriceSource>(sheet: &mut SheetBytes, source: &S)
    requires { sheet.old.items ≡ [] }
    ensures { sheet.new.items ≡ sheet_bytes (S.PriceSource.means source.now) }
{
    for byte in OPENING {
        sheet.push(*byte);
    }
    put_quantity(sheet, source.zone_net());
    put_avoided(sheet, source.avoided());
    for slot in 0..SLOTS {
        put_slot(sheet, told(source, slot));
    }
}

/// How many bytes the sheet of a source has.
pub fn sheet_len<S: PriceSource>(source: &S) -> usize
    ensures { result ≡ length (sheet_bytes (S.PriceSource.means source.now)) }
{
    let mut sheet = SheetBytes::new();
    put_sheet(&mut sheet, source);
    sheet.len()
}

/// Writes the sheet of a source and answers its length. Bytes after the sheet's end stay as they are, and
/// a buffer that is too short is left unchanged.
#[tactic(auto, using(crate::proofs::SheetTrips::same_bytes))]
pub fn write_sheet<S: PriceSource>(source: &S, out: &mut [u8]) -> Result<usize, ShortBuffer>
    ensures answers { result ≡ written (sheet_bytes (S.PriceSource.means source.now)) out.old }
    ensures leaves { out.new ≡ left (sheet_bytes (S.PriceSource.means source.now)) out.old }
    ensures tells_back { TellsBack (S.PriceSource.means source.now) }
    ensures same_bytes { SameBytes (S.PriceSource.means source.now) }
{
    let mut sheet = SheetBytes::new();
    put_sheet(&mut sheet, source);
    let needed = sheet.len();
    if out.len() < needed {
        return Err(ShortBuffer { needed });
    }
    out[..needed].copy_from_slice(sheet.as_slice());
    Ok(needed)
}

/// The sheet of a source, in memory of its own. Only want of memory refuses it, and leaves nothing made.
#[tactic(auto, using(crate::proofs::SheetTrips::same_bytes))]
pub fn sheet_vec<S: PriceSource>(heap: Global, source: &S) -> Result<Vec<u8>, AllocError>
    ensures made { IfOk result (λ v. v.items ≡ sheet_bytes (S.PriceSource.means source.now)) }
    ensures only_memory_refuses { IsOkUnless result alloc_error }
    ensures tells_back { TellsBack (S.PriceSource.means source.now) }
    ensures same_bytes { SameBytes (S.PriceSource.means source.now) }
{
    let mut sheet = SheetBytes::new();
    put_sheet(&mut sheet, source);
    Vec::from_slice(heap, sheet.as_slice())
}
