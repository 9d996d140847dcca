// The lines of an input, of which one at a time is held.
ghost use Rattle.std.specs.Prelude.{◌≡◌, IfOk};
ghost use Rattle.std.specs.Io.BufRead.{ends_with_byte, strip_last};
ghost use Rattle.words.specs.Inputs.{IsNextLine};
ghost use Rattle.words.specs.Marks.{line_end};

use std::io;
use std::io::BufRead;

// Takes a line's end off, if it has one; whether it had.
fn cut_line_end(line: &mut Vec<u8>) -> bool
    ensures ended { result ≡ ends_with_byte line_end line.old.items }
    ensures cut { line.new.items ≡ strip_last line_end line.old.items }
{
    if !matches!(line.as_slice(), [.., b'\n']) {
        return false;
    }
    line.pop();
    true
}

/// Reads the next line into `line`, in place of what that held and without the line's end; whether another line
/// follows it. After a line end at the end of the input an empty line follows.
pub fn next_line<B: BufRead>(input: &mut B, line: &mut Vec<u8>) -> io::Result<bool>
    ensures { IfOk result (λ more. IsNextLine (B.remaining input.old) line.new.items more (B.remaining input.new)) }
{
    line.clear();
    input.read_until(b'\n', line)?;
    Ok(cut_line_end(line))
}
