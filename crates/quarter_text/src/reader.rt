// A quarter that is read line by line.
ghost use Rattle.std.specs.Prelude.{◌≡◌, ◌+◌, [], min};
ghost use Rattle.quarter_text.specs.Readers.{GoesOn, HasRead, TellsItsLines, accepted, quarter_read, read_so_far, with_next};
ghost use Rattle.quarter_text.specs.declared.reader.TheConstants.{MOST_LINES};

use crate::draft::Draft;
use crate::fault::TextFault;
use crate::quarter::TextQuarter;
use words::Line;

/// The lines after these have the number of the last.
const MOST_LINES: usize = usize::MAX;

/// Reads a quarter from the lines of a text, one after another, without their line ends. A text that ends with a line
/// end has an empty line after it. Once a line is refused, every further one is refused with the same fault, and so
/// is the quarter.
#[derive(Drop)]
pub struct TextReader {
    draft: Draft,
    lines: usize,
    refused: Option<TextFault>,
}

impl TextReader {
    /// Before the first line.
    pub fn new() -> TextReader
        ensures no_line_read { HasRead result [] }
    {
        TextReader {
            draft: Draft::blank(),
            lines: 0,
            refused: None,
        }
    }

    /// Reads one line more.
    pub fn line(&mut self, bytes: &[u8]) -> Result<(), TextFault>
        ensures answers { result ≡ accepted (read_so_far self.new) }
        ensures reads { read_so_far self.new ≡ with_next (read_so_far self.old) self.old.lines bytes.now }
        ensures counts { self.new.lines ≡ min (self.old.lines + 1) MOST_LINES }
        ensures goes_on { GoesOn self.old bytes.now self.new }
    {
        let line = self.lines;
        self.lines = line.saturating_add(1);
        self.read(line, bytes)
    }

    // Reads the line of this number, counted from 0.
    fn read(&mut self, line: usize, bytes: &[u8]) -> Result<(), TextFault>
        ensures answers { result ≡ accepted (read_so_far self.new) }
        ensures reads { read_so_far self.new ≡ with_next (read_so_far self.old) line bytes.now }
        ensures counts_as_before { self.new.lines ≡ self.old.lines }
    {
        if let Some(fault) = self.refused {
            return Err(fault);
        }
        if let Err(fault) = self.draft.take(line, &Line::of(bytes)) {
            let fault = fault.in_line(line);
            self.refused = Some(fault);
            return Err(fault);
        }
        Ok(())
    }

    /// The quarter that the lines tell, or their first fault.
    pub fn finish(self) -> Result<TextQuarter, TextFault>
        ensures tells { result ≡ quarter_read self }
        ensures tells_its_lines { TellsItsLines self result }
    {
        if let Some(fault) = self.refused {
            return Err(fault);
        }
        self.draft.finished(self.lines)
    }
}
