// Up bids on a ladder, to measure what adding and withdrawing cost.
ghost use Rattle.std.specs.Prelude.{◌≡◌, []};
ghost use Rattle.ladders.specs.Ladders.{Leads, items_in};
ghost use Rattle.bids.specs.Merit.{up_order};
ghost use Rattle.bids.specs.declared.kinds.TheConstants.{MOST_BIDS};
ghost use Rattle.exports.specs.BenchLadders.{adding_answers, after_adding_all, count_accepted, laddered, ranks_over, up_bid, withdrawing_answers};

use crate::plain::{PlainBid, PlainLadder};
use bids::{BidRow, MOST_BIDS, UpBid};
use ladders::Ladder;

impl From<PlainBid> for UpBid {
    ghost from_gives = { λ b u. u ≡ up_bid b };

    fn from(bid: PlainBid) -> UpBid {
        UpBid(BidRow {
            cents: bid.cents,
            kw: bid.kw,
            number: bid.number,
        })
    }
}

// Adds each bid in turn, puts its rank in its place, and answers how many are added.
fn add_all(ladder: &mut Ladder<'_, UpBid>, bids: &[PlainBid], ranks: &mut [usize]) -> usize
    requires begins { Leads up_order MOST_BIDS MOST_BIDS [] ladder.old }
    requires empty { items_in ladder.old ≡ [] }
    ensures stand { items_in ladder.new ≡ after_adding_all bids.now [] }
    ensures ranks { ranks.new ≡ ranks_over (adding_answers bids.now []) ranks.old }
    ensures added { result ≡ count_accepted (adding_answers bids.now []) }
{
    let mut added = 0;
    for (place, bid) in bids.iter().enumerate() {
        if let Ok(rank) = ladder.add(UpBid::from(*bid)) {
            added += 1;
            if place < ranks.len() {
                ranks[place] = rank;
            }
        }
    }
    added
}

// Withdraws the bid of each number in turn, and answers how many are withdrawn.
fn withdraw_all(ladder: &mut Ladder<'_, UpBid>, numbers: &[u16]) -> usize
    ensures { result ≡ count_accepted (withdrawing_answers numbers.now (items_in ladder.old)) }
{
    let mut withdrawn = 0;
    for number in numbers {
        if ladder.withdraw(*number).is_ok() {
            withdrawn += 1;
        }
    }
    withdrawn
}

/// A ladder for the bench, which is in up merit order and has 512 places of its own: it adds each bid in turn, and then
/// withdraws the bid of each number in turn. The numbers of a bid need not be in a bid's bounds, so that none is refused
/// but by the ladder: a number that stands already, one bid too many, or a number to withdraw that does not stand. The
/// rank at which a bid was added is put in its place of `ranks`; the place of a refused one, and those past the bids,
/// are left as they were.
#[unsafe(no_mangle)]
pub extern "C" fn fumeliosa_bench_ladder(
    bids: &[PlainBid],
    numbers: &[u16],
    ranks: &mut [usize],
) -> PlainLadder
    ensures answers { result ≡ laddered bids.now numbers.now }
    ensures ranks { ranks.new ≡ ranks_over (adding_answers bids.now []) ranks.old }
{
    let mut memory = [UpBid::default(); MOST_BIDS];
    let mut ladder = Ladder::new(&mut memory);
    let added = add_all(&mut ladder, bids, ranks);
    let withdrawn = withdraw_all(&mut ladder, numbers);
    PlainLadder { added, withdrawn }
}
