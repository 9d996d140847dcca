// The five rulebooks and one from outside, worked out over the slots, with incentive components over them. A quarter that
// goes down is mirrored: demands and prices change their sign, the avoided value too, so the extreme is always the highest,
// and the price is mirrored back at the end.
use crate::fault::{Fault, Refusal};
use crate::fraction::{Fraction, higher};
use crate::plain::{CYCLES, Plain, Quarter, SLOTS};
use std::fmt;

/// A rulebook, with its code.
#[derive(Clone, Copy)]
pub(crate) enum Rules {
    WeightedAverage = 1,
    CombinedAutomatic = 2,
    CombinedAll = 3,
    MaxMin = 4,
    Finnish = 5,
    /// From outside the library: the weighted mean, and beyond it a reference price.
    Referenced = 31,
}

/// The reference price, in cents.
pub(crate) const REFERENCE: i64 = 8_000;

/// A rulebook under a code, and how many incentive components lie over it.
#[derive(Clone, Copy)]
pub(crate) struct Asked {
    pub rules: Rules,
    pub code: u16,
    pub incentives: u16,
}

/// The rulebooks with a printed line.
pub(crate) static RULES: [Rules; 5] = [
    Rules::WeightedAverage,
    Rules::CombinedAutomatic,
    Rules::CombinedAll,
    Rules::MaxMin,
    Rules::Finnish,
];

impl Rules {
    /// So many incentive components over the rulebook.
    pub(crate) fn under(self, incentives: u16) -> Asked {
        Asked {
            rules: self,
            code: self as u16,
            incentives,
        }
    }
}

impl Asked {
    /// Ten above for each incentive component, 65,535 at most.
    pub(crate) fn code(self) -> u16 {
        self.code.saturating_add(self.incentives.saturating_mul(10))
    }
}

/// What is quoted under a rulebook, in cents.
#[derive(Clone, Copy, PartialEq, Eq)]
pub(crate) enum Quote {
    Up(i64),
    Down(i64),
    Avoided(i64),
}

#[derive(Clone, Copy)]
pub(crate) enum Direction {
    Up,
    Down,
}

impl Direction {
    fn of(net: i64) -> Option<Direction> {
        match net {
            1.. => Some(Direction::Up),
            0 => None,
            _ => Some(Direction::Down),
        }
    }

    pub(crate) fn quote(self, cents: i64) -> Quote {
        match self {
            Direction::Up => Quote::Up(cents),
            Direction::Down => Quote::Down(cents),
        }
    }

    /// A number that is mirrored, or mirrored back.
    pub(crate) fn mirrored(self, number: i64) -> i64 {
        match self {
            Direction::Up => number,
            Direction::Down => number.saturating_mul(-1),
        }
    }
}

// A slot with a price, as a direction sees it: the volume that counts, and the price formed.
#[derive(Clone, Copy)]
struct Seen {
    place: usize,
    volume: u64,
    price: i64,
}

// A quarter, as a direction sees it.
#[derive(Clone, Copy)]
struct View<'a> {
    quarter: &'a Quarter,
    direction: Direction,
}

fn weight(place: usize) -> u32 {
    if place < CYCLES { 1 } else { 225 }
}

impl Seen {
    fn counts(&self) -> bool {
        self.volume > 0
    }

    fn is_manual(&self) -> bool {
        self.place >= CYCLES
    }
}

impl View<'_> {
    fn see(&self, place: usize, slot: &Plain) -> Option<Seen> {
        let formed = match self.direction {
            Direction::Up => slot.up,
            Direction::Down => slot.down,
        };
        let kw = self.direction.mirrored(slot.kw.unwrap_or(0));
        let volume = kw.max(0).unsigned_abs();
        formed.map(|cents| Seen {
            place,
            volume: volume.saturating_mul(u64::from(weight(place))),
            price: self.direction.mirrored(cents),
        })
    }

    // The mean of what counts in the first so many slots.
    fn mean(&self, slots: usize) -> Option<Fraction> {
        let mut n: i128 = 0;
        let mut d: u64 = 0;
        for (place, slot) in self.quarter.slots.iter().enumerate().take(slots) {
            if let Some(seen) = self.see(place, slot) {
                let product = i128::from(seen.volume).saturating_mul(i128::from(seen.price));
                n = n.saturating_add(product);
                d = d.saturating_add(seen.volume);
            }
        }
        Fraction::new(n, d)
    }

    // The highest of the single prices that are looked at.
    fn highest<F: Fn(&Seen) -> bool>(&self, looked_at: F) -> Option<i64>
        requires { (state : F) (slot : _) → F.pre state slot }
    {
        let slots = self.quarter.slots.iter().enumerate();
        let seen = slots.filter_map(|(place, slot)| self.see(place, slot));
        seen.filter(looked_at).map(|seen| seen.price).max()
    }

    // The weighted mean, and beyond it the reference price, no further than the highest price formed.
    fn referenced(&self) -> Option<Fraction> {
        let mean = self.mean(SLOTS)?;
        let highest = self.highest(|_| true)?;
        let reference = self.direction.mirrored(REFERENCE).min(highest);
        higher(Some(mean), Some(Fraction::whole(reference)))
    }

    fn exact(&self, rules: Rules) -> Option<Fraction> {
        let all = self.mean(SLOTS);
        let automatic = self.mean(CYCLES);
        let manual = self.highest(|seen| seen.counts() && seen.is_manual());
        let manual = manual.map(Fraction::whole);
        match rules {
            Rules::WeightedAverage => all,
            Rules::CombinedAutomatic => higher(automatic, manual),
            Rules::CombinedAll => higher(all, manual),
            Rules::MaxMin => self.highest(|seen| seen.counts()).map(Fraction::whole),
            Rules::Finnish if manual.is_some() => all,
            Rules::Finnish => {
                let formed = self.highest(|seen| seen.is_manual());
                higher(automatic, formed.map(Fraction::whole))
            }
            Rules::Referenced => self.referenced(),
        }
    }

    // The avoided value is compared once, however many incentive components there are, and before anything is rounded.
    fn with_incentives(&self, asked: Asked) -> Option<Fraction> {
        let below = self.exact(asked.rules)?;
        let avoided = self.quarter.avoided.filter(|_| asked.incentives > 0);
        let value = avoided.map(|cents| Fraction::whole(self.direction.mirrored(cents)));
        higher(Some(below), value)
    }

    fn quote(&self, asked: Asked) -> Option<Quote> {
        let cents = self.with_incentives(asked)?.nearest();
        Some(self.direction.quote(self.direction.mirrored(cents)))
    }
}

fn local_net(quarter: &Quarter) -> i64 {
    let slots = quarter.slots.iter().enumerate();
    slots.fold(0i64, |net, (place, slot)| {
        let kw = slot.kw.unwrap_or(0);
        net.saturating_add(kw.saturating_mul(i64::from(weight(place))))
    })
}

/// The quote of a quarter whose numbers are in bounds.
pub(crate) fn quote_of(quarter: &Quarter, asked: Asked) -> Result<Quote, Fault> {
    if let Some(place) = quarter.slots.iter().position(|slot| slot.kw.is_none()) {
        return Err(Refusal::Unreported.at(place));
    }
    let net = match asked.rules {
        Rules::Finnish | Rules::Referenced => quarter.zone_net,
        _ => local_net(quarter),
    };
    let direction = Direction::of(net);
    let quote = direction.and_then(|direction| View { quarter, direction }.quote(asked));
    let avoided = quarter.avoided.map(Quote::Avoided);
    quote.or(avoided).ok_or(Refusal::NoAvoided.at(SLOTS))
}

/// Cents as euros.
#[derive(Clone, Copy)]
pub(crate) struct Euros(pub i64);

impl fmt::Display for Euros {
    fn fmt<W: fmt::Write>(&self, f: &mut fmt::Formatter<W>) -> fmt::Result {
        let sign = if self.0 < 0 { "-" } else { "" };
        let whole = self.0.unsigned_abs() / 100;
        let cents = self.0.unsigned_abs() % 100;
        write!(f, "{sign}{whole}.{cents:02}")
    }
}

impl fmt::Display for Quote {
    fn fmt<W: fmt::Write>(&self, f: &mut fmt::Formatter<W>) -> fmt::Result {
        match *self {
            Quote::Up(cents) => write!(f, "U {}", Euros(cents)),
            Quote::Down(cents) => write!(f, "D {}", Euros(cents)),
            Quote::Avoided(cents) => write!(f, "A {}", Euros(cents)),
        }
    }
}
