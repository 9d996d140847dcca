// The figures of a quarter, as a rulebook is given them.
ghost use Rattle.source.specs.Meanings.{Meaning};
ghost use Rattle.figures.specs.Sides.{SourceGives};

use crate::side::Side;
use units::{Price, ZoneNet};

/// Both nets, the avoided value and each direction's figures. Some 228 reported slots, a zone net and an
/// avoided value give them, so that a rulebook answers for no others.
#[derive(Clone, Copy)]
pub struct Figures {
    pub local_net: i64,
    pub zone_net: ZoneNet,
    pub avoided: Option<Price>,
    pub up: Side,
    pub down: Side,
    ghost given: { ∥ ((m : Meaning) × SourceGives m local_net zone_net avoided up down) ∥₁ },
}
