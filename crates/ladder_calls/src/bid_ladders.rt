// The ladders of both directions, and the calls over them.
ghost use Rattle.std.specs.Prelude.{◌≡◌};
ghost use Rattle.units.specs.Chains.{result_map_err};
ghost use Rattle.bids.specs.Numbers.{number_made};
ghost use Rattle.ladder_calls.specs.Making.{as_made, row_of_numbers};
ghost use Rattle.ladder_calls.specs.declared.fault.CallFault.TheVariants.{Bid as OfBid};

use crate::call::{BidNumbers, Call};
use crate::fault::CallFault;
use bids::{Bid, BidRow, DownBid, UpBid, bid_number};
use ladders::Ladder;
use source::Direction;
use units::{Price, Quantity};

/// What an accepted call did.
#[derive(Clone, Copy, PartialEq, Eq)]
pub enum Done {
    /// A bid stands at this rank then.
    Added {
        direction: Direction,
        number: u16,
        rank: usize,
    },
    /// This bid stands no longer.
    Withdrawn {
        direction: Direction,
        row: BidRow,
    },
}

/// The ladder of up bids and that of down bids.
#[derive(Drop)]
pub struct BidLadders<'a> {
    pub(crate) up: Ladder<'a, UpBid>,
    pub(crate) down: Ladder<'a, DownBid>,
}

// The bid of these numbers, whose price is judged first.
fn bid_of(numbers: BidNumbers) -> Result<Bid, CallFault>
    ensures { as_made result ≡ row_of_numbers numbers }
{
    let price = Price::new(numbers.cents)?;
    Ok(Bid::new(price, numbers.kw, numbers.number)?)
}

// The number of a bid that is to be withdrawn.
fn number_of(number: i64) -> Result<u16, CallFault>
    ensures { result ≡ result_map_err (number_made number) OfBid }
{
    Ok(bid_number(number)?)
}

impl<'a> BidLadders<'a> {
    ghost use Rattle.std.specs.Prelude.{◌≡◌};
    ghost use Rattle.ladder_calls.specs.Standings.{IsSoundStep, answer_of, down_after, down_event, empty, standing_on, up_after, up_event};
    ghost use Rattle.bids.specs.Merit.{down_order, up_order};
    ghost use Rattle.bids.specs.declared.kinds.TheConstants.{MOST_BIDS};
    ghost use Rattle.ladders.specs.Ladders.{Leads};
    ghost use Rattle.std.specs.Prelude.{[], length, min, IfErr};

    /// Both ladders over the memory that is lent for each, with no bid on them.
    pub fn new(up: &'a mut [UpBid], down: &'a mut [DownBid]) -> BidLadders<'a>
        ensures none_stands { standing_on result ≡ empty (length up.old) (length down.old) }
        ensures up_run_begins { Leads up_order MOST_BIDS (min MOST_BIDS (length up.old)) [] result.up }
        ensures down_run_begins { Leads down_order MOST_BIDS (min MOST_BIDS (length down.old)) [] result.down }
    {
        BidLadders {
            up: Ladder::new(up),
            down: Ladder::new(down),
        }
    }

    /// Adds a bid to the ladder of its direction, or withdraws one from it. Refused with 5 and place 1 where the price is
    /// out of bounds, 20 and place 0 where the quantity is, 5 and place 3 where the number is; then as the ladder refuses
    /// it, with 18, 17 or 19. A refused call changes nothing.
    pub fn call(&mut self, call: Call) -> Result<Done, CallFault>
        ensures answers { result ≡ answer_of (standing_on self.old) call }
        ensures up_then { (standing_on self.new).up ≡ up_after (standing_on self.old) call }
        ensures down_then { (standing_on self.new).down ≡ down_after (standing_on self.old) call }
        ensures refused_unchanged { IfErr result (λ fault. (self.new.up ≡ self.old.up) × (self.new.down ≡ self.old.down)) }
        ensures up_sound { IsSoundStep up_order (up_event (standing_on self.old) call) self.old.up self.new.up }
        ensures down_sound { IsSoundStep down_order (down_event (standing_on self.old) call) self.old.down self.new.down }
    {
        match call {
            Call::Add(direction, numbers) => {
                let bid = bid_of(numbers)?;
                let rank = match direction {
                    Direction::Up => self.up.add(UpBid::from(bid))?,
                    Direction::Down => self.down.add(DownBid::from(bid))?,
                };
                let number = bid.number;
                Ok(Done::Added {
                    direction,
                    number,
                    rank,
                })
            }
            Call::Withdraw(direction, number) => {
                let number = number_of(number)?;
                let row = match direction {
                    Direction::Up => self.up.withdraw(number)?.0,
                    Direction::Down => self.down.withdraw(number)?.0,
                };
                Ok(Done::Withdrawn { direction, row })
            }
        }
    }
}
