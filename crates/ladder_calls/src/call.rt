// A call, as a line of plain text has it.
ghost use Rattle.std.specs.Prelude.{◌≡◌};
ghost use Rattle.words.specs.Lines.{words_in};
ghost use Rattle.words.specs.Numerals.{most_decimals};
ghost use Rattle.ladder_calls.specs.Lines.{add_line, call_of, direction_at, value_at, withdraw_line};

use crate::fault::{Part, WordFault};
use source::Direction;
use words::{Line, Places};

/// The numbers of a bid, which need not be in its bounds: a price in cents per MWh, a quantity in kW and the bid's number.
#[derive(Clone, Copy, PartialEq, Eq, Debug)]
pub struct BidNumbers {
    pub cents: i64,
    pub kw: i64,
    pub number: i64,
}

/// A call over the ladder of a direction.
#[derive(Clone, Copy, PartialEq, Eq)]
pub enum Call {
    /// A bid of these numbers is added.
    Add(Direction, BidNumbers),
    /// The bid of this number is withdrawn.
    Withdraw(Direction, i64),
}

fn direction_at(line: &Line<'_>, at: usize) -> Result<Direction, WordFault>
    ensures { result ≡ direction_at (words_in line.now) at }
{
    if line.has(at, b"up") {
        return Ok(Direction::Up);
    }
    line.keyword(at, b"down", Part::Direction)?;
    Ok(Direction::Down)
}

fn value_at(line: &Line<'_>, at: usize, places: Places, part: Part) -> Result<i64, WordFault>
    ensures { result ≡ value_at (words_in line.now) at (most_decimals places) part }
{
    Ok(line.numeral(at, places, part)?.value())
}

fn add_line(line: &Line<'_>) -> Result<Call, WordFault>
    ensures { result ≡ add_line (words_in line.now) }
{
    let direction = direction_at(line, 1)?;
    let cents = value_at(line, 2, Places::Two, Part::Price)?;
    let kw = value_at(line, 3, Places::Whole, Part::Quantity)?;
    let number = value_at(line, 4, Places::Whole, Part::Number)?;
    line.end(5, Part::End)?;
    Ok(Call::Add(direction, BidNumbers { cents, kw, number }))
}

fn withdraw_line(line: &Line<'_>) -> Result<Call, WordFault>
    ensures { result ≡ withdraw_line (words_in line.now) }
{
    let direction = direction_at(line, 1)?;
    let number = value_at(line, 2, Places::Whole, Part::Number)?;
    line.end(3, Part::End)?;
    Ok(Call::Withdraw(direction, number))
}

/// The call of a line, none where it has no words; or the first word that should be another. A number whose size is
/// greater than 10^12 is read as of that size, which is out of all bounds.
pub fn read_call(line: &[u8]) -> Result<Option<Call>, WordFault>
    ensures { result ≡ call_of line.now }
{
    let line = Line::of(line);
    if line.is_empty() {
        return Ok(None);
    }
    if line.has(0, b"add") {
        return Ok(Some(add_line(&line)?));
    }
    line.keyword(0, b"withdraw", Part::Call)?;
    Ok(Some(withdraw_line(&line)?))
}
