// The sums over the slots that were read so far.
ghost use Rattle.std.specs.Prelude.{◌≡◌, ◌*◌, ◌≤◌, pos, ◌*ℤ◌, unsigned_abs};
ghost use Rattle.figures.specs.Counting.{counted, demand_in};
ghost use Rattle.figures.specs.Sides.{no_totals, volume_of};
ghost use Rattle.figures.specs.steps.Bounds.{most_net, most_volume};
ghost use Rattle.figures.specs.steps.Tallies.{Room, blank, counting, counting_in, cycles_of, manual, noting, noting_in, tally_of, with_in};

use crate::side::{Activation, Manual, Totals};
use crate::span::span_between;
use crate::weighed::Weighed;
use source::Direction;
use units::Price;

// Of one direction V, S and the prices of the cycles counted, and the formed prices of the slots noted. Each price is
// a field: two in a struct of their own are copied packed in one word, which takes longer.
#[derive(Clone, Copy)]
pub(crate) struct DirectionTally {
    pub(crate) volume: u64,
    pub(crate) turnover: i64,
    pub(crate) lowest_counting: Price,
    pub(crate) highest_counting: Price,
    pub(crate) lowest_formed: Price,
    pub(crate) highest_formed: Price,
}

// The local net of the slots noted, and what was counted and noted in each direction.
#[derive(Clone, Copy)]
pub(crate) struct Tally {
    pub(crate) net: i64,
    pub(crate) up: DirectionTally,
    pub(crate) down: DirectionTally,
}

impl Weighed {
    // The size of the demand in a direction, 0 where it is not in that direction.
    fn demand_in(self, direction: Direction) -> u64
        ensures { result ≡ demand_in direction self.reading }
    {
        let kw = self.reading.demand.kw();
        match direction {
            Direction::Up if kw > 0 => kw.unsigned_abs(),
            Direction::Down if kw < 0 => kw.unsigned_abs(),
            _ => 0,
        }
    }

    fn energy(self) -> i64
        ensures weight_times_demand { result ≡ pos self.weight *ℤ self.reading.demand.kw }
        ensures bounded { unsigned_abs result ≤ most_volume }
    {
        self.weight as i64 * self.reading.demand.kw()
    }

    fn activation(self, direction: Direction) -> Option<Activation>
        ensures what_counts { result ≡ counted direction self.weight self.reading }
        ensures bounded { volume_of result ≤ most_volume }
    {
        let size = self.demand_in(direction);
        let volume = self.weight * size;
        let price = self.reading.formed(direction).filter(|_| size > 0);
        price.map(|price| Activation { volume, price })
    }

    pub(crate) fn manual(self, direction: Direction) -> Manual
        ensures { result ≡ manual direction self }
    {
        Manual {
            volume: self
                .activation(direction)
                .map_or(0, |activation| activation.volume),
            price: self.reading.formed(direction),
        }
    }
}

impl DirectionTally {
    fn blank() -> DirectionTally
        ensures { result ≡ tally_of no_totals None }
    {
        DirectionTally {
            volume: 0,
            turnover: 0,
            lowest_counting: Price::highest(),
            highest_counting: Price::lowest(),
            lowest_formed: Price::highest(),
            highest_formed: Price::lowest(),
        }
    }

    // The totals of the cycles counted.
    pub(crate) fn cycles(self) -> Totals
        ensures { result ≡ cycles_of self }
    {
        Totals {
            volume: self.volume,
            turnover: self.turnover,
            span: span_between(self.lowest_counting, self.highest_counting),
        }
    }

    // One price more, where it is formed.
    fn noting(self, price: Option<Price>) -> DirectionTally
        ensures { result ≡ noting_in price self }
    {
        let Some(price) = price else {
            return self;
        };
        DirectionTally {
            volume: self.volume,
            turnover: self.turnover,
            lowest_counting: self.lowest_counting,
            highest_counting: self.highest_counting,
            lowest_formed: price.min(self.lowest_formed),
            highest_formed: price.max(self.highest_formed),
        }
    }

    // One cycle more, where it counts.
    fn counting(self, activation: Option<Activation>) -> DirectionTally
        requires room { Room self }
        requires bounded { volume_of activation ≤ most_volume }
        ensures { result ≡ counting_in activation self }
    {
        let Some(added) = activation else {
            return self;
        };
        DirectionTally {
            volume: self.volume + added.volume,
            turnover: self.turnover + added.volume as i64 * added.price.cents(),
            lowest_counting: added.price.min(self.lowest_counting),
            highest_counting: added.price.max(self.highest_counting),
            lowest_formed: self.lowest_formed,
            highest_formed: self.highest_formed,
        }
    }

    // One cycle more: the price formed in the direction, and what counts in it. Without that price nothing does.
    fn with(self, direction: Direction, cycle: Weighed) -> DirectionTally
        requires { Room self }
        ensures { result ≡ with_in direction cycle self }
    {
        let price = cycle.reading.formed(direction);
        if price.is_none() {
            return self;
        }
        self.noting(price).counting(cycle.activation(direction))
    }
}

impl Tally {
    pub(crate) fn blank() -> Tally
        ensures { result ≡ blank }
    {
        Tally {
            net: 0,
            up: DirectionTally::blank(),
            down: DirectionTally::blank(),
        }
    }

    // The demand and the formed prices of one slot more.
    pub(crate) fn noting(self, slot: Weighed) -> Tally
        requires { unsigned_abs self.net ≤ most_net }
        ensures { result ≡ noting slot self }
    {
        Tally {
            net: self.net + slot.energy(),
            up: self.up.noting(slot.reading.up),
            down: self.down.noting(slot.reading.down),
        }
    }

    // One cycle more.
    pub(crate) fn with(self, cycle: Weighed) -> Tally
        requires net { unsigned_abs self.net ≤ most_net }
        requires up { Room self.up }
        requires down { Room self.down }
        ensures { result ≡ counting cycle (noting cycle self) }
    {
        Tally {
            net: self.net + cycle.energy(),
            up: self.up.with(Direction::Up, cycle),
            down: self.down.with(Direction::Down, cycle),
        }
    }
}
