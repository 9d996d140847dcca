// The offers that stand on a ladder, as a list that is sorted anew with each offer that is added and filtered with each
// that is withdrawn. A price downward is mirrored, so that the lowest always stands first.
use crate::fault::{Fault, Refusal};
use crate::rules::{Direction, Euros};
use std::alloc::{AllocError, Global};
use std::fmt;

/// The bounds of an offer's quantity, and the greatest number.
pub(crate) const KW: [i64; 2] = [1, 10_000_000];

pub(crate) const MOST_NUMBER: i64 = 65_535;

// The most offers that stand.
const MOST: usize = 512;

/// An offer of plain numbers, in bounds or not.
#[derive(Clone, Copy, PartialEq, Eq)]
pub(crate) struct Offer {
    pub cents: i64,
    pub kw: i64,
    pub number: i64,
}

/// A call on a ladder.
#[derive(Clone, Copy)]
pub(crate) enum Call {
    Add(Offer),
    Withdraw(u16),
}

/// What an accepted call answers: the rank, or the offer that stood.
#[derive(Clone, Copy, PartialEq, Eq)]
pub(crate) enum Done {
    Added(usize),
    Withdrawn(Offer),
}

#[derive(Drop)]
pub(crate) struct MeritList {
    direction: Direction,
    places: usize,
    offers: Vec<Offer>,
}

impl fmt::Display for Offer {
    fn fmt<W: fmt::Write>(&self, f: &mut fmt::Formatter<W>) -> fmt::Result {
        write!(f, "{} at {}", self.number, Euros(self.cents))
    }
}

impl fmt::Display for Done {
    fn fmt<W: fmt::Write>(&self, f: &mut fmt::Formatter<W>) -> fmt::Result {
        match *self {
            Done::Added(rank) => write!(f, "rank {rank}"),
            Done::Withdrawn(offer) => write!(f, "{offer}"),
        }
    }
}

impl Call {
    /// The number that it speaks of.
    pub(crate) fn number(self) -> i64 {
        match self {
            Call::Add(offer) => offer.number,
            Call::Withdraw(number) => i64::from(number),
        }
    }
}

impl MeritList {
    /// An empty list, over a memory of so many places.
    pub(crate) fn new(heap: Global, direction: Direction, memory: usize) -> MeritList {
        MeritList {
            direction,
            places: memory.min(MOST),
            offers: Vec::new(heap),
        }
    }

    pub(crate) fn offers(&self) -> &[Offer] {
        self.offers.as_slice()
    }

    pub(crate) fn stands(&self, number: i64) -> bool {
        self.offers.iter().any(|offer| offer.number == number)
    }

    // Why an offer is not added: its quantity, its number, one of its number that stands, and then no place.
    fn fault(&self, offer: &Offer) -> Option<Fault> {
        let [least, most] = KW;
        if offer.kw < least || offer.kw > most {
            return Some(Refusal::BidQuantity.at(0));
        }
        if offer.number < 0 || offer.number > MOST_NUMBER {
            return Some(Refusal::Bounds.at(3));
        }
        if self.stands(offer.number) {
            return Some(Refusal::Standing.at(usize::try_from(offer.number).unwrap_or(0)));
        }
        let count = self.offers.len();
        (count >= self.places).then(|| Refusal::Full.at(count))
    }

    fn add(&mut self, offer: Offer) -> Result<Result<Done, Fault>, AllocError> {
        if let Some(fault) = self.fault(&offer) {
            return Ok(Err(fault));
        }
        let direction = self.direction;
        self.offers.push(offer)?;
        self.offers
            .sort_by_key(|offer| (direction.mirrored(offer.cents), offer.number))?;
        let place = self.offers.iter().position(|other| *other == offer);
        Ok(Ok(Done::Added(place.unwrap_or(0))))
    }

    fn withdraw(&mut self, number: u16) -> Result<Done, Fault> {
        let plain = i64::from(number);
        let found = self
            .offers
            .iter()
            .find(|offer| offer.number == plain)
            .copied();
        let refused = Refusal::NotStanding.at(usize::from(number));
        self.offers.retain(|offer| offer.number != plain);
        found.map(Done::Withdrawn).ok_or(refused)
    }

    pub(crate) fn call(&mut self, call: Call) -> Result<Result<Done, Fault>, AllocError> {
        match call {
            Call::Add(offer) => self.add(offer),
            Call::Withdraw(number) => Ok(self.withdraw(number)),
        }
    }
}
