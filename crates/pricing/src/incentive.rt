// The incentive component: a layer over any rulebook.
ghost use Rattle.std.specs.Prelude.{◌≡◌};
ghost use Rattle.pricing.specs.Incentives.{code_above, incentive};
ghost use Rattle.pricing.specs.laws.Outer.{incentive_keeps};

use crate::rulebook::Rulebook;
use crate::ruling::{DirectedPrice, Net, Ruling};
use figures::{Figures, extreme_of};
use units::Ratio;

// How far a layer's code is above the one below, and the greatest code.
const STEP: u16 = 10;

const HIGHEST_CODE: u16 = 65_535;

/// The incentive component over the rulebook below: an up price is lifted, and a down price lowered, to the avoided value
/// where that is more extreme than the exact price. Avoided stays avoided, and an absent avoided value changes nothing.
/// The code is ten above the one below, 65,535 at most, and the deciding net is that one's. It is for national boundary
/// conditions, after Svenska kraftnät, reference group on imbalance pricing, second meeting, 16 June 2026.
#[derive(Clone, Copy, Drop)]
pub struct Incentive<R> {
    pub below: R,
}

impl<R: Rulebook> Rulebook for Incentive<R> {
    const CODE: u16 = if R::CODE > HIGHEST_CODE - STEP {
        HIGHEST_CODE
    } else {
        R::CODE + STEP
    };

    const NET: Net = R::NET;

    ghost CODE = { code_above R.Rulebook.CODE };

    ghost NET = { R.Rulebook.NET };

    ghost ruling = { λ r. incentive (R.Rulebook.ruling r.below) };

    fn decide(&self, figures: &Figures) -> Ruling {
        let DirectedPrice { direction, price } = self.below.decide(figures)?;
        let value = figures.avoided.map(Ratio::from);
        let price = extreme_of(direction, Some(price), value)?;
        Some(DirectedPrice { direction, price })
    }

    ghost keeps_laws = { λ r f. incentive_keeps R.Rulebook.NET f (R.Rulebook.ruling r.below f) (R.Rulebook.keeps_laws r.below f) };
}
