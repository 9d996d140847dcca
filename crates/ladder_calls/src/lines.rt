// What is printed of calls and of what stands.
ghost use Rattle.std.specs.Prelude.{◌≡◌, Some, flat_map};
ghost use Rattle.source.specs.declared.direction.Direction.{Direction};
ghost use Rattle.source.specs.declared.direction.Direction.TheVariants.{Up, Down};
ghost use Rattle.bids.specs.declared.row.BidRow.{BidRow};
ghost use Rattle.ladder_calls.specs.Texts.{answer_text, bid_line, bid_text, direction_text, ladders_text};

use crate::bid_ladders::{BidLadders, Done};
use crate::fault::CallFault;
use bids::{BidRow, DownBid, UpBid};
use source::Direction;
use std::fmt;
use units::{Amount, Refusal};

/// The word of a direction.
#[derive(Clone, Copy)]
struct DirectionWord(Direction);

impl fmt::Display for DirectionWord {
    ghost output = { λ x. Some (direction_text x.0) };

    fn fmt<W: fmt::Write>(&self, f: &mut fmt::Formatter<W>) -> fmt::Result {
        match self.0 {
            Direction::Up => write!(f, "up"),
            Direction::Down => write!(f, "down"),
        }
    }
}

/// A bid on the ladder of a direction: the direction, the price in euros, the quantity in kW, the number.
#[derive(Clone, Copy)]
struct BidText {
    direction: Direction,
    row: BidRow,
}

impl fmt::Display for BidText {
    ghost output = { λ x. Some (bid_text x.direction x.row) };

    fn fmt<W: fmt::Write>(&self, f: &mut fmt::Formatter<W>) -> fmt::Result {
        let direction = DirectionWord(self.direction);
        let BidRow { cents, kw, number } = self.row;
        let euros = Amount {
            cents: i64::from(cents),
        };
        write!(f, "{direction} {euros} {kw} {number}")
    }
}

/// The line of a call's answer: what was added and at which rank it stands, what was withdrawn, or !, the refusal's number
/// and its place.
#[derive(Clone, Copy)]
pub struct AnswerLine(pub Result<Done, CallFault>);

impl fmt::Display for AnswerLine {
    ghost output = { λ x. Some (answer_text x.0) };

    fn fmt<W: fmt::Write>(&self, f: &mut fmt::Formatter<W>) -> fmt::Result {
        match self.0 {
            Ok(
                Done::Added {
                    direction,
                    number,
                    rank,
                },
            ) => {
                let direction = DirectionWord(direction);
                write!(f, "added {direction} {number} at {rank}\n")
            }
            Ok(Done::Withdrawn { direction, row }) => {
                let bid = BidText { direction, row };
                write!(f, "withdrawn {bid}\n")
            }
            Err(fault) => {
                let number = fault.number();
                let place = fault.place();
                write!(f, "! {number} {place}\n")
            }
        }
    }
}

/// A bid of one direction.
trait OneSided: Copy {
    const DIRECTION: Direction;

    ghost DIRECTION: { Direction };

    ghost row_of: { Self → BidRow };

    fn row(self) -> BidRow
        ensures { result ≡ row_of self };
}

impl OneSided for UpBid {
    const DIRECTION: Direction = Direction::Up;

    ghost DIRECTION = { Up };

    ghost row_of = { λ x. x.0 };

    fn row(self) -> BidRow {
        self.0
    }
}

impl OneSided for DownBid {
    const DIRECTION: Direction = Direction::Down;

    ghost DIRECTION = { Down };

    ghost row_of = { λ x. x.0 };

    fn row(self) -> BidRow {
        self.0
    }
}

/// A line for each bid.
#[derive(Clone, Copy)]
struct BidLines<'a, T>(&'a [T]);

impl<T: OneSided> fmt::Display for BidLines<'_, T> {
    ghost output = { λ x. Some (flat_map (λ y. bid_line T.DIRECTION (T.row_of y)) x.0.now) };

    fn fmt<W: fmt::Write>(&self, f: &mut fmt::Formatter<W>) -> fmt::Result {
        let direction = T::DIRECTION;
        for bid in self.0 {
            let row = bid.row();
            write!(f, "{}\n", BidText { direction, row })?;
        }
        Ok(())
    }
}

/// A line for each bid that stands, the up bids before the down bids, and of each direction the first bid first.
impl fmt::Display for BidLadders<'_> {
    ghost output = { λ x. Some (ladders_text x) };

    fn fmt<W: fmt::Write>(&self, f: &mut fmt::Formatter<W>) -> fmt::Result {
        let up = BidLines(self.up.items());
        let down = BidLines(self.down.items());
        write!(f, "{up}{down}")
    }
}
