// The prices that a rulebook may take from the figures.
ghost use Rattle.std.specs.Prelude.{◌≡◌, ◌+◌, ◌*◌, ◌≤◌, ◌+ℤ◌, Option, unsigned_abs};
ghost use Rattle.figures.specs.Components.{Component, automatic_mean, component_of, counting_price, cycles_extreme, extreme, extreme_of_span, formed_price, manual_counts, manual_extreme, manual_turnover, no_more_extreme, side_in, weighted_mean};
ghost use Rattle.figures.specs.steps.Bounds.{most_volume};
ghost use Rattle.figures.specs.declared.side.Manual.{Manual};
ghost use Rattle.units.specs.Exact.{exact_of};
ghost use Rattle.units.specs.declared.bounds.TheConstants.{MOST_CENTS};
ghost use Rattle.units.specs.declared.ratio.Ratio.{Ratio};

use crate::quarter_figures::Figures;
use crate::side::{Manual, Side};
use crate::span::Span;
use source::Direction;
use units::Ratio;

fn no_more_extreme(direction: Direction, a: Ratio, b: Ratio) -> bool
    ensures { result ≡ no_more_extreme direction (exact_of a) (exact_of b) }
{
    match direction {
        Direction::Up => a.at_most(b),
        Direction::Down => b.at_most(a),
    }
}

/// The greater of two exact prices for up, the lesser for down; one that does not exist is passed over.
pub fn extreme_of(direction: Direction, a: Option<Ratio>, b: Option<Ratio>) -> Option<Ratio>
    ensures { component_of result ≡ extreme direction (component_of a) (component_of b) }
{
    let (Some(first), Some(second)) = (a, b) else {
        return a.or(b);
    };
    if no_more_extreme(direction, first, second) {
        b
    } else {
        a
    }
}

impl Span {
    fn extreme(self, direction: Direction) -> Ratio
        ensures { exact_of result ≡ extreme_of_span direction self }
    {
        Ratio::from(direction.pick(self.highest, self.lowest))
    }
}

impl Manual {
    // Volume times price.
    fn turnover(self) -> i64
        requires { self.volume ≤ most_volume }
        ensures volume_times_price { result ≡ manual_turnover self }
        ensures bounded { unsigned_abs result ≤ MOST_CENTS * self.volume }
    {
        let cents = self.price.map_or(0, |price| price.cents());
        self.volume as i64 * cents
    }

    fn formed_price(self) -> Option<Ratio>
        ensures { component_of result ≡ formed_price self }
    {
        self.price.map(Ratio::from)
    }

    fn counting_price(self) -> Option<Ratio>
        ensures { component_of result ≡ counting_price self }
    {
        if self.volume > 0 {
            self.formed_price()
        } else {
            None
        }
    }
}

impl Side {
    // Volume times price, summed over the manual slots.
    fn manual_turnovers(self) -> i64
        requires scheduled { self.scheduled.volume ≤ most_volume }
        requires direct_up { self.direct_up.volume ≤ most_volume }
        requires direct_down { self.direct_down.volume ≤ most_volume }
        ensures summed { result ≡ manual_turnover self.scheduled +ℤ (manual_turnover self.direct_up +ℤ manual_turnover self.direct_down) }
        ensures bounded { unsigned_abs result ≤ MOST_CENTS * (self.scheduled.volume + (self.direct_up.volume + self.direct_down.volume)) }
    {
        self.scheduled.turnover() + self.direct_up.turnover() + self.direct_down.turnover()
    }

    // The extreme of the prices that `price` takes of the manual slots.
    fn manual_extreme<F: Fn(Manual) -> Option<Ratio>>(
        self,
        direction: Direction,
        price: F,
    ) -> Option<Ratio>
        requires { F.IsAlwaysCallable price }
        ensures { (p : Manual → Component) → ((m : Manual) (r : Option Ratio) → F.post price m r → component_of r ≡ p m) → component_of result ≡ manual_extreme p direction self }
    {
        let direct = extreme_of(direction, price(self.direct_up), price(self.direct_down));
        extreme_of(direction, price(self.scheduled), direct)
    }
}

impl Figures {
    /// The figures of a direction.
    pub fn side(&self, direction: Direction) -> Side
        ensures { result ≡ side_in direction self.now }
    {
        direction.pick(self.up, self.down)
    }

    /// The volume-weighted mean of all that counts in a direction.
    pub fn weighted_mean(&self, direction: Direction) -> Option<Ratio>
        ensures { component_of result ≡ weighted_mean (side_in direction self.now) }
    {
        let side = self.side(direction);
        let manual = side.manual_turnovers();
        let volume = side.cycles.volume
            + side.scheduled.volume
            + side.direct_up.volume
            + side.direct_down.volume;
        if volume == 0 {
            return None;
        }
        Some(Ratio {
            n: side.cycles.turnover + manual,
            d: volume,
        })
    }

    /// The volume-weighted mean of the counting cycles.
    pub fn automatic_mean(&self, direction: Direction) -> Option<Ratio>
        ensures { component_of result ≡ automatic_mean (side_in direction self.now) }
    {
        let cycles = self.side(direction).cycles;
        if cycles.volume == 0 {
            return None;
        }
        Some(Ratio {
            n: cycles.turnover,
            d: cycles.volume,
        })
    }

    /// The extreme of the counting cycle prices.
    pub fn counting_cycles(&self, direction: Direction) -> Option<Ratio>
        ensures { component_of result ≡ cycles_extreme direction (side_in direction self.now) }
    {
        let cycles = self.side(direction).cycles;
        cycles.span.map(|span| span.extreme(direction))
    }

    /// The extreme of the counting manual prices.
    pub fn counting_manual(&self, direction: Direction) -> Option<Ratio>
        ensures { component_of result ≡ manual_extreme counting_price direction (side_in direction self.now) }
    {
        let side = self.side(direction);
        side.manual_extreme(direction, Manual::counting_price)
    }

    /// The extreme of the formed manual prices, whatever their demand.
    pub fn formed_manual(&self, direction: Direction) -> Option<Ratio>
        ensures { component_of result ≡ manual_extreme formed_price direction (side_in direction self.now) }
    {
        let side = self.side(direction);
        side.manual_extreme(direction, Manual::formed_price)
    }

    /// Whether a manual slot counts.
    pub fn manual_counts(&self, direction: Direction) -> bool
        ensures { result ≡ manual_counts (side_in direction self.now) }
    {
        let side = self.side(direction);
        side.scheduled.volume > 0 || side.direct_up.volume > 0 || side.direct_down.volume > 0
    }
}
