// A rulebook from outside the library, which holds a price of its own.
ghost use Rattle.std.specs.Prelude.{◌≡◌};
ghost use Rattle.figures.specs.Components.{component_of};
ghost use Rattle.pricing.specs.laws.Lawful.{rulebook_keeps};
ghost use Rattle.pricing.specs.Rulings.{by_net};
ghost use Rattle.pricing.specs.declared.ruling.Net.TheVariants.{Zone};
ghost use Rattle.quarter_tests.specs.laws.Keeping.{reference_lawful};
ghost use Rattle.quarter_tests.specs.References.{reference_price, reference_within};

use figures::{Figures, Span, extreme_of};
use pricing::{DirectedPrice, Net, Rulebook, Ruling};
use source::Direction;
use units::{Price, Ratio};

/// Code 31, by the zone's net: the extreme of the weighted mean and a reference price, which goes no further than the
/// prices formed.
#[derive(Clone, Copy)]
pub struct Referenced {
    pub reference: Price,
}

impl Referenced {
    // The reference price, no further than the prices formed.
    fn within(&self, direction: Direction, formed: Option<Span>) -> Option<Ratio>
        ensures { component_of result ≡ reference_within self.now.reference direction formed }
    {
        let opposite = direction.pick(Direction::Down, Direction::Up);
        let farthest = formed.map(|span| Ratio::from(direction.pick(span.highest, span.lowest)));
        extreme_of(opposite, Some(Ratio::from(self.reference)), farthest)
    }
}

impl Rulebook for Referenced {
    const CODE: u16 = 31;

    const NET: Net = Net::Zone;

    ghost CODE = { 31 };

    ghost NET = { Zone };

    ghost ruling = { λ r. by_net Zone (reference_price r.reference) };

    fn decide(&self, figures: &Figures) -> Ruling {
        let direction = Direction::of_net(Self::NET.of(figures))?;
        let mean = figures.weighted_mean(direction)?;
        let reference = self.within(direction, figures.side(direction).formed);
        let price = extreme_of(direction, Some(mean), reference)?;
        Some(DirectedPrice { direction, price })
    }

    ghost keeps_laws = { λ r. rulebook_keeps Zone (reference_price r.reference) (reference_lawful r.reference) };
}
