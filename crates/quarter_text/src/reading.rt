// Reading a quarter from plain text.
ghost use Rattle.std.specs.Prelude.{◌≡◌};
ghost use Rattle.quarter_text.specs.Drafts.{quarter_of};
ghost use Rattle.quarter_text.specs.Steps.{ReadsAll};

use crate::fault::TextFault;
use crate::quarter::TextQuarter;
use crate::reader::TextReader;

// A reader that was given all lines of a text.
fn reader_of(text: &[u8]) -> Result<TextReader, TextFault>
    ensures { ReadsAll text.now result }
{
    let mut reader = TextReader::new();
    for line in text.split(|byte| *byte == b'\n') {
        reader.line(line)?;
    }
    Ok(reader)
}

/// The quarter that a text of any bytes tells, or its first fault.
pub fn read_quarter(text: &[u8]) -> Result<TextQuarter, TextFault>
    ensures { result ≡ quarter_of text.now }
{
    reader_of(text)?.finish()
}
