// A ladder and a merit list of one direction, called side by side, and the ladder's memory beside what it has to hold.
use crate::fault::{Fault, Numbered};
use crate::merit::{Call, Done, MeritList, Offer};
use crate::rules::Direction;
use bids::{Bid, BidFault, BidRow, DownBid, UpBid};
use ladders::{Item, Ladder, LadderFault};
use std::alloc::{AllocError, Global};
use units::{Price, Quantity};

/// A bid of one direction.
pub(crate) trait Sided: Item + From<Bid> + Drop {
    const DIRECTION: Direction;

    fn of_row(row: BidRow) -> Self;

    fn row(self) -> BidRow;
}

impl Sided for UpBid {
    const DIRECTION: Direction = Direction::Up;

    fn of_row(row: BidRow) -> UpBid {
        UpBid(row)
    }

    fn row(self) -> BidRow {
        self.0
    }
}

impl Sided for DownBid {
    const DIRECTION: Direction = Direction::Down;

    fn of_row(row: BidRow) -> DownBid {
        DownBid(row)
    }

    fn row(self) -> BidRow {
        self.0
    }
}

impl From<BidRow> for Offer {
    fn from(row: BidRow) -> Offer {
        Offer {
            cents: i64::from(row.cents),
            kw: i64::from(row.kw),
            number: i64::from(row.number),
        }
    }
}

impl From<BidFault> for Numbered {
    fn from(fault: BidFault) -> Numbered {
        Numbered::of(fault)
    }
}

impl From<LadderFault> for Numbered {
    fn from(fault: LadderFault) -> Numbered {
        Numbered::of(fault)
    }
}

/// The answers to one call, and whether the same stands and is told after it.
#[derive(Clone, Copy)]
pub(crate) struct Called {
    pub rival: Result<Done, Fault>,
    library: Result<Done, Numbered>,
    pub same: bool,
}

impl Called {
    pub(crate) fn agree(&self) -> bool {
        self.same && self.rival.map_err(Numbered::from) == self.library
    }
}

#[derive(Drop)]
pub(crate) struct Side<T: Sided> {
    memory: Vec<T>,
    /// What the memory has to hold.
    wanted: Vec<Offer>,
    list: MeritList,
}

// A price that a call has is in bounds.
fn done_by<T: Sided>(ladder: &mut Ladder<'_, T>, call: Call) -> Result<Done, Numbered> {
    match call {
        Call::Add(offer) => {
            let price = Price::new(offer.cents).unwrap_or(Price::lowest());
            let bid = Bid::new(price, offer.kw, offer.number)?;
            Ok(Done::Added(ladder.add(T::from(bid))?))
        }
        Call::Withdraw(number) => {
            let item = ladder.withdraw(number)?;
            Ok(Done::Withdrawn(Offer::from(item.row())))
        }
    }
}

fn is_offer<T: Sided>(item: Option<T>, offer: Option<&Offer>) -> bool {
    item.map(|item| Offer::from(item.row())) == offer.copied()
}

// What stands, in its order, and what each question answers of it; of the ranks the first, the middle, the last and
// those beyond are asked, of the numbers that of the call and its neighbours.
fn same_standing<T: Sided>(ladder: &Ladder<'_, T>, list: &MeritList, call: Call) -> bool {
    let offers = list.offers();
    let len = offers.len();
    let ranks = [0, 1, len / 2, len.saturating_sub(1), len, usize::MAX];
    let number = u16::try_from(call.number()).unwrap_or(0);
    let numbers = [number, number.wrapping_add(1), number.wrapping_sub(1)];
    let at = |rank: &usize| is_offer(ladder.at(*rank), offers.get(*rank));
    let stands = |number: &u16| ladder.stands(*number) == list.stands(i64::from(*number));
    ladder.len() == len
        && same_items(ladder.items(), offers)
        && ranks.iter().all(at)
        && numbers.iter().all(stands)
}

fn same_items<T: Sided>(items: &[T], offers: &[Offer]) -> bool {
    let mut both = items.iter().zip(offers.iter());
    items.len() == offers.len() && both.all(|(item, offer)| Offer::from(item.row()) == *offer)
}

impl<T: Sided> Side<T> {
    /// A memory of so many places, each with numbers of its own.
    pub(crate) fn new(heap: Global, places: u16) -> Result<Side<T>, AllocError> {
        let mut memory = Vec::new(heap);
        let mut wanted = Vec::new(heap);
        for place in 0..places {
            let row = BidRow {
                cents: i32::from(place),
                kw: 0,
                number: place,
            };
            memory.push(T::of_row(row))?;
            wanted.push(Offer::from(row))?;
        }
        Ok(Side {
            list: MeritList::new(heap, T::DIRECTION, memory.len()),
            memory,
            wanted,
        })
    }

    pub(crate) fn list(&self) -> &MeritList {
        &self.list
    }

    /// Makes the calls on a ladder that is begun over the memory: what stood is added again in its order, which leaves
    /// the memory as it was. Each call is compared, and when the ladder is gone all of the memory.
    pub(crate) fn play(&mut self, heap: Global, calls: &[Call]) -> Result<Vec<Called>, AllocError> {
        let count = self.list.offers().len();
        let stood: Vec<T> = self.memory.iter().copied().take(count).collect(heap)?;
        let mut answers = Vec::new(heap);
        let mut ladder = Ladder::new(self.memory.as_mut_slice());
        let mut same = stood.iter().all(|item| ladder.add(*item).is_ok());
        for call in calls.iter().copied() {
            let library = done_by(&mut ladder, call);
            let rival = self.list.call(call)?;
            same = same && same_standing(&ladder, &self.list, call);
            answers.push(Called {
                rival,
                library,
                same,
            })?;
            for (place, offer) in self.wanted.iter_mut().zip(self.list.offers().iter()) {
                *place = *offer;
            }
        }
        let kept = same_items(self.memory.as_slice(), self.wanted.as_slice());
        if let Some(last) = answers.last_mut() {
            last.same = last.same && kept;
        }
        Ok(answers)
    }
}
