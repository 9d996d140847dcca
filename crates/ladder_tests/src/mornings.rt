// A morning's calls on a ladder, and its memory afterwards.
ghost use Rattle.std.specs.Prelude.{◌≡◌, ◌≤◌, length, take, None};
ghost use Rattle.bids.specs.Merit.{up_order};
ghost use Rattle.ladder_tests.specs.Mornings.{StandsAfterMorning, bid_places};
ghost use Rattle.ladders.specs.Lists.{item_of};
ghost use Rattle.ladders.specs.Orders.{HasNumbersOnce, IsInOrder};

use bids::UpBid;
use ladders::Ladder;

/// Adds two bids on a ladder and withdraws a number, whatever each call answers. How many bids stand then: they are in
/// front in the memory, where they are read when the ladder is gone.
pub fn morning(memory: &mut [UpBid], first: UpBid, second: UpBid, number: u16) -> usize
    ensures within { result ≤ length memory.new }
    ensures in_order { IsInOrder up_order (take result memory.new) }
    ensures numbers_once { HasNumbersOnce up_order (take result memory.new) }
    ensures withdrawn { item_of up_order number (take result memory.new) ≡ None }
    ensures stands { StandsAfterMorning (bid_places (length memory.old)) first second number (take result memory.new) }
{
    let mut ladder = Ladder::new(memory);
    let _ = ladder.add(first);
    let _ = ladder.add(second);
    let _ = ladder.withdraw(number);
    ladder.len()
}
