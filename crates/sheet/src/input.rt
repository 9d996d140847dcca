// The bytes that decide a sheet: no byte after them changes what is told, refused or handed out.
ghost use Rattle.std.specs.Prelude.{◌≡◌, IfOk, IfSome, take};
ghost use Rattle.sheet.specs.Laws.{DecideSheet};

use crate::length::SHEET_BYTES;
use std::alloc::Global;
use std::io;
use std::io::Read;

/// A sheet's most bytes and one more, by which bytes that follow the last slot are seen.
pub const DECIDING_BYTES: usize = SHEET_BYTES + 1;

/// The first `DECIDING_BYTES` of the bytes, or all: as a sheet they have the first fault of all the bytes, tell what these
/// tell, and the same is handed out of them.
#[tactic(auto, using(crate::proofs::FirstBytes::deciding_bytes))]
pub fn deciding(bytes: &[u8]) -> &[u8]
    ensures first_bytes { result.now ≡ take DECIDING_BYTES bytes.now }
    ensures decides { DecideSheet result.now bytes.now }
    ensures one_more_than_a_sheet { (SHEET_BYTES ≡ 2977) × (DECIDING_BYTES ≡ 2978) }
{
    &bytes[..bytes.len().min(DECIDING_BYTES)]
}

// The first `most` bytes of an input, or all; it is asked for no more.
fn read_first<I: Read + Drop>(heap: Global, input: I, most: u64) -> io::Result<Vec<u8>>
    ensures first_bytes { IfOk result (λ v. IfSome (I.Read.remaining input) (λ xs. v.items ≡ take most xs)) }
{
    let mut bytes = Vec::new(heap);
    input.take(most).read_to_end(&mut bytes)?;
    Ok(bytes)
}

/// The bytes of an input that decide its sheet; it is asked for no more.
#[tactic(auto, using(crate::proofs::FirstBytes::deciding_bytes))]
pub fn read_deciding<I: Read + Drop>(heap: Global, input: I) -> io::Result<Vec<u8>>
    ensures decides { IfOk result (λ v. IfSome (I.Read.remaining input) (λ xs. DecideSheet v.items xs)) }
{
    read_first(heap, input, DECIDING_BYTES as u64)
}
