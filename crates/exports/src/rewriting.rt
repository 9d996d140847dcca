// A sheet read as a price source, and written again.
ghost use Rattle.std.specs.Prelude.{◌≡◌, length};
ghost use Rattle.sheet.specs.Sheets.{sheet_meaning};
ghost use Rattle.writing.specs.Bytes.{sheet_bytes};
ghost use Rattle.writing.specs.Writes.{left};

use sheet::Sheet;
use writing::write_sheet;

/// Writes what a sheet of any bytes tells, and answers how many bytes that takes. A buffer that is shorter is left
/// as it was.
#[unsafe(no_mangle)]
pub extern "C" fn fumeliosa_rewrite(bytes: &[u8], out: &mut [u8]) -> usize
    ensures answers { result ≡ length (sheet_bytes (sheet_meaning bytes.now)) }
    ensures leaves { out.new ≡ left (sheet_bytes (sheet_meaning bytes.now)) out.old }
{
    let sheet = Sheet::read(bytes);
    write_sheet(&sheet, out).unwrap_or_else(|short| short.needed)
}
