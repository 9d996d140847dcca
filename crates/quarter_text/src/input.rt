// Reading a quarter from an input, of which a line at a time is held.
ghost use Rattle.std.specs.Prelude.{◌≡◌, IfErr, IfOk, IfSome};
ghost use Rattle.quarter_text.specs.Drafts.{quarter_of};
ghost use Rattle.quarter_text.specs.Readers.{HasWordOf};

use crate::fault::TextFault;
use crate::quarter::TextQuarter;
use crate::reader::TextReader;
use std::io;
use std::io::{BufRead, ErrorKind};
use words::next_line;

/// The quarter that an input's text tells, or its first fault; then `line` is the line that is refused, and empty
/// where the text ends too early. What follows a refused line is not read.
pub fn read_quarter_from<B: BufRead>(
    input: &mut B,
    line: &mut Vec<u8>,
) -> io::Result<Result<TextQuarter, TextFault>>
    ensures refused_line { IfOk result (λ quarter. IfErr quarter (λ fault. IfSome (B.remaining input.old) (λ text. HasWordOf line.new.items text fault))) }
    ensures quarter_of_all { IfOk result (λ quarter. IfSome (B.remaining input.old) (λ text. quarter ≡ quarter_of text)) }
{
    let mut reader = TextReader::new();
    for _ in 0..u64::MAX {
        let more = next_line(input, line)?;
        if let Err(fault) = reader.line(line.as_slice()) {
            return Ok(Err(fault));
        }
        if !more {
            line.clear();
            return Ok(reader.finish());
        }
    }
    Err(io::Error::from(ErrorKind::FileTooLarge))
}
