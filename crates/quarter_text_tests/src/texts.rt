// What the library makes of a text.
use quarter_text::{Message, Problem, TextFault, quarter_text, read_quarter};
use std::alloc::{AllocError, Global};
use std::test::Fail;
use words::word_of;
use writing::sheet_vec;

/// A text with a megabyte of the middle part.
pub(crate) fn stretched(
    heap: Global,
    front: &str,
    middle: &str,
    back: &[u8],
) -> Result<Vec<u8>, AllocError> {
    let mut text = Vec::from_slice(heap, front.as_bytes())?;
    for byte in middle.bytes().cycle().take(1_000_000) {
        text.push(byte)?;
    }
    text.extend_from_slice(back)?;
    Ok(text)
}

/// The head lines, and then these.
pub(crate) fn with_head(heap: Global, lines: &str) -> Result<String, AllocError> {
    format!(in heap; "net 0\navoided -\n{lines}")
}

/// The line, the word and the problem of a text that is refused.
pub(crate) fn fault_of(text: &[u8]) -> Option<(usize, usize, Problem)> {
    let fault = read_quarter(text).err()?;
    Some((fault.line, fault.word, fault.problem))
}

/// The same of lines of slots, which begin at line 2.
pub(crate) fn fault_in(
    heap: Global,
    lines: &str,
) -> Result<Option<(usize, usize, Problem)>, AllocError> {
    Ok(fault_of(with_head(heap, lines)?.as_bytes()))
}

fn message(heap: Global, text: &[u8], fault: TextFault) -> Result<String, AllocError> {
    let word = word_of(text, fault);
    format!(in heap; "{}", Message { fault, word })
}

/// The sheet of a text.
pub(crate) fn sheet_of(heap: Global, text: &[u8]) -> Result<Vec<u8>, Fail> {
    let quarter = read_quarter(text)?;
    Ok(sheet_vec(heap, &quarter)?)
}

/// A text, read and printed; or what is said of it, if it is refused.
pub(crate) fn printed(heap: Global, text: &[u8]) -> Result<String, AllocError> {
    match read_quarter(text) {
        Ok(quarter) => quarter_text(heap, &quarter),
        Err(fault) => message(heap, text, fault),
    }
}

/// The same of these lines after a head.
pub(crate) fn printed_of_lines(heap: Global, lines: &str) -> Result<String, AllocError> {
    let text = with_head(heap, lines)?;
    printed(heap, text.as_bytes())
}
