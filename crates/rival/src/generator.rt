// Quarters from a fixed sequence of numbers, and damages to their sheets.
use crate::plain::{CYCLES, DEMAND, IDLE, PRICE, Plain, Quarter, SLOTS, UNREPORTED, ZONE_NET};
use std::alloc::{AllocError, Global};

/// How the numbers of a quarter are drawn.
#[derive(Clone, Copy)]
pub(crate) enum Kind {
    /// Anywhere in bounds.
    Wide,
    /// From -3 to 3, so that halves, ties and nets of 0 come up.
    Small,
    /// As `Small`, in about one slot of sixteen.
    Sparse,
    /// At the bounds, next to them, and about 0.
    Edge,
    /// As `Edge`, with the same slot throughout.
    Level,
    /// As `Wide`, with an unreported slot here and there.
    Gaps,
    /// As `Edge`, with a number just out of bounds here and there.
    Beyond,
}

/// The kinds in the order of the quarters.
pub(crate) static KINDS: [Kind; 7] = [
    Kind::Wide,
    Kind::Small,
    Kind::Sparse,
    Kind::Edge,
    Kind::Level,
    Kind::Gaps,
    Kind::Beyond,
];

// One damage to a sheet; a change is turned bits.
#[derive(Clone, Copy)]
enum Damage {
    Cut,
    Changed(u8),
    TakenOut,
    PutIn(u8),
    Added(u8),
}

/// A linear congruential sequence modulo 2^64.
#[derive(Drop)]
pub(crate) struct Dice {
    state: u64,
}

impl Dice {
    pub(crate) fn new() -> Dice {
        Dice { state: 20_260_601 }
    }

    /// A number below `sides`, from the upper 31 bits.
    pub(crate) fn roll(&mut self, sides: u64) -> u64 {
        self.state = self
            .state
            .wrapping_mul(6_364_136_223_846_793_005)
            .wrapping_add(1_442_695_040_888_963_407);
        (self.state / 8_589_934_592).checked_rem(sides).unwrap_or(0)
    }

    /// A number from `-bound` to `bound`.
    pub(crate) fn within(&mut self, bound: i64) -> i64 {
        let sides = bound.unsigned_abs().saturating_mul(2).saturating_add(1);
        let roll = i64::try_from(self.roll(sides)).unwrap_or(0);
        roll.saturating_sub(bound)
    }

    // A number at a bound, next to it or about 0.
    fn edge(&mut self, bound: i64) -> i64 {
        let size = match self.roll(6) {
            0 => 0,
            1 => 1,
            2 => 64,
            3 => bound.saturating_sub(1),
            _ => bound,
        };
        if self.roll(2) == 0 {
            size
        } else {
            size.wrapping_neg()
        }
    }

    fn number(&mut self, kind: Kind, bound: i64) -> i64 {
        match kind {
            Kind::Wide | Kind::Gaps => self.within(bound),
            Kind::Small | Kind::Sparse => self.within(3),
            Kind::Edge | Kind::Level => self.edge(bound),
            Kind::Beyond if self.roll(400) == 0 => bound.saturating_add(1),
            Kind::Beyond if self.roll(400) == 0 => (-1i64).saturating_sub(bound),
            Kind::Beyond => self.edge(bound),
        }
    }

    fn price(&mut self, kind: Kind, sides: u64) -> Option<i64> {
        (self.roll(sides) != 0).then(|| self.number(kind, PRICE))
    }

    // In a manual slot half of the demands are 0, so that formed prices decide under code 5.
    fn slot(&mut self, kind: Kind, place: usize) -> Plain {
        match kind {
            Kind::Gaps if self.roll(300) == 0 => return UNREPORTED,
            Kind::Sparse if self.roll(16) != 0 => return IDLE,
            _ => {}
        }
        let idle = place >= CYCLES && self.roll(2) == 0;
        Plain {
            kw: Some(if idle { 0 } else { self.number(kind, DEMAND) }),
            up: self.price(kind, 3),
            down: self.price(kind, 3),
        }
    }

    /// A quarter of one kind.
    pub(crate) fn quarter(&mut self, kind: Kind) -> Quarter {
        let mut slots = [self.slot(kind, 0); SLOTS];
        if !matches!(kind, Kind::Level) {
            for (place, slot) in slots.iter_mut().enumerate() {
                *slot = self.slot(kind, place);
            }
        }
        Quarter {
            slots,
            zone_net: self.number(kind, ZONE_NET),
            avoided: self.price(kind, 4),
        }
    }

    // A place to damage: one time in four in the head.
    fn place(&mut self, len: usize) -> usize {
        let sides = if self.roll(4) == 0 { 12 } else { len as u64 };
        self.roll(sides) as usize
    }

    /// A sheet with one damage: cut, a byte changed, its top bit turned, taken out, put in, or added at the end.
    pub(crate) fn damaged(&mut self, heap: Global, sheet: &[u8]) -> Result<Vec<u8>, AllocError> {
        let number = self.roll(6);
        let place = self.place(sheet.len());
        let noise = (self.roll(255) % 255) as u8 + 1;
        let damage = match number {
            0 => Damage::Cut,
            1 => Damage::Changed(noise),
            2 => Damage::Changed(128),
            3 => Damage::TakenOut,
            4 => Damage::PutIn(noise),
            _ => Damage::Added(noise),
        };
        let mut out = Vec::from_slice(heap, sheet)?;
        damage.apply(&mut out, place)?;
        Ok(out)
    }
}

impl Damage {
    fn apply(self, sheet: &mut Vec<u8>, place: usize) -> Result<(), AllocError> {
        match self {
            Damage::Cut => sheet.truncate(place),
            Damage::Changed(change) => {
                if let Some(byte) = sheet.get_mut(place) {
                    *byte ^= change;
                }
            }
            Damage::TakenOut if place < sheet.len() => {
                sheet.remove(place);
            }
            Damage::PutIn(noise) if place < sheet.len() => sheet.insert(place, noise)?,
            Damage::TakenOut | Damage::PutIn(_) => {}
            Damage::Added(noise) => sheet.push(noise)?,
        }
        Ok(())
    }
}
