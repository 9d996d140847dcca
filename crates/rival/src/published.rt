// The named quarters: those worked by hand, and those of published tables. `docs/WORKED.md` says how the energy of each
// table became kW.
use crate::fault::{Fault, Refusal};
use crate::fraction::Fraction;
use crate::plain::{IDLE, Plain, Quarter, SLOTS};
use crate::rules::Quote::{Avoided, Down, Up};
use crate::rules::{Quote, RULES, quote_of};
use std::array;

/// Slots from the first to the last, the kW of each, and the up and the down price formed, in cents.
#[derive(Clone, Copy)]
pub(crate) struct Block(
    pub usize,
    pub usize,
    pub i64,
    pub Option<i64>,
    pub Option<i64>,
);

const NO_VALUE: Option<Result<Quote, Fault>> = Some(Err(Fault {
    refusal: Refusal::NoAvoided,
    place: SLOTS,
}));

/// The answers of codes 1 to 5, or of 11 to 15, that a source prints, and none where it prints none.
pub(crate) type Stated = [Option<Result<Quote, Fault>>; 5];

/// A named quarter. Slots in no block have demand 0 and no price. What is stated is rounded to `unit` cents.
#[derive(Clone, Copy)]
pub(crate) struct Case {
    pub name: &'static str,
    pub zone_net: i64,
    pub avoided: Option<i64>,
    pub blocks: &'static [Block],
    pub stated: Stated,
    pub unit: u32,
}

// Area A of each table of the Swedish slides; worked by hand under codes 1 to 5.
pub(crate) const THREE_LEVELS: &[Block] = &[
    Block(0, 74, 100_000, Some(20_000), None),
    Block(75, 149, 100_000, Some(40_000), None),
    Block(150, 224, 100_000, Some(70_000), None),
    Block(225, 225, 300_000, Some(10_000), None),
    Block(226, 226, 100_000, Some(100_000), None),
];

// 15:00 of the Finnish note, which is worked by hand too.
pub(crate) const MANUAL_ACTIVATED: &[Block] = &[
    Block(0, 224, 80_000, Some(10_000), None),
    Block(225, 225, 200_000, Some(5_000), None),
];

// 15:15 of the Finnish note.
pub(crate) const DOWNWARD: &[Block] = &[
    Block(0, 224, -80_000, None, Some(2_000)),
    Block(225, 225, -120_000, Some(4_000), Some(4_000)),
];

// 15:45 of the Finnish note, which is worked by hand too.
const MANUAL_FORMED: &[Block] = &[
    Block(0, 224, 200_000, Some(5_000), None),
    Block(225, 225, 0, Some(10_000), None),
];

// Demand both ways with a net of 0.
const BALANCED: &[Block] = &[
    Block(0, 0, 1, Some(1_000), None),
    Block(1, 1, -1, None, Some(500)),
];

// Areas without demand of the Swedish slides; the prices are those of the whole zone.
const NO_DEMAND: &[Block] = &[
    Block(0, 74, 0, Some(20_000), None),
    Block(75, 149, 0, Some(40_000), None),
    Block(150, 224, 0, Some(70_000), None),
    Block(225, 225, 0, Some(10_000), None),
    Block(226, 226, 0, Some(100_000), None),
];

pub(crate) static CASES: [Case; 22] = [
    Case {
        name: "three price levels",
        zone_net: 400_000,
        avoided: Some(5_000),
        blocks: THREE_LEVELS,
        stated: [
            Some(Ok(Up(34_667))),
            Some(Ok(Up(100_000))),
            Some(Ok(Up(100_000))),
            Some(Ok(Up(100_000))),
            Some(Ok(Up(34_667))),
        ],
        unit: 1,
    },
    Case {
        name: "manual energy activated",
        zone_net: 200_000,
        avoided: None,
        blocks: MANUAL_ACTIVATED,
        stated: [None, None, None, None, Some(Ok(Up(6_429)))],
        unit: 1,
    },
    Case {
        name: "manual price formed only",
        zone_net: 400_000,
        avoided: None,
        blocks: MANUAL_FORMED,
        stated: [Some(Ok(Up(5_000))), None, None, None, Some(Ok(Up(10_000)))],
        unit: 1,
    },
    Case {
        name: "half a cent",
        zone_net: 0,
        avoided: None,
        blocks: &[Block(0, 0, 1, Some(0), None), Block(1, 1, 1, Some(1), None)],
        stated: [Some(Ok(Up(1))), None, None, None, None],
        unit: 1,
    },
    Case {
        name: "half a cent below zero",
        zone_net: 0,
        avoided: None,
        blocks: &[
            Block(0, 0, 1, Some(0), None),
            Block(1, 1, 1, Some(-1), None),
        ],
        stated: [Some(Ok(Up(-1))), None, None, None, None],
        unit: 1,
    },
    Case {
        name: "balanced",
        zone_net: 0,
        avoided: Some(700),
        blocks: BALANCED,
        stated: [
            Some(Ok(Avoided(700))),
            Some(Ok(Avoided(700))),
            Some(Ok(Avoided(700))),
            Some(Ok(Avoided(700))),
            None,
        ],
        unit: 1,
    },
    Case {
        name: "balanced, no avoided value",
        zone_net: 0,
        avoided: None,
        blocks: BALANCED,
        stated: [NO_VALUE, NO_VALUE, NO_VALUE, NO_VALUE, None],
        unit: 1,
    },
    Case {
        name: "Finnish note, 15:00",
        zone_net: 200_000,
        avoided: None,
        blocks: MANUAL_ACTIVATED,
        stated: [None, None, None, None, Some(Ok(Up(6_429)))],
        unit: 1,
    },
    Case {
        name: "Finnish note, 15:15",
        zone_net: -400_000,
        avoided: None,
        blocks: DOWNWARD,
        stated: [None, None, None, None, Some(Ok(Down(3_200)))],
        unit: 1,
    },
    Case {
        name: "Finnish note, 15:30",
        zone_net: -400_000,
        avoided: None,
        blocks: &[
            Block(0, 224, -120_000, None, Some(4_000)),
            Block(225, 225, 200_000, Some(3_000), Some(3_000)),
        ],
        stated: [None, None, None, None, Some(Ok(Down(3_000)))],
        unit: 1,
    },
    Case {
        name: "Finnish note, 15:45",
        zone_net: 400_000,
        avoided: None,
        blocks: MANUAL_FORMED,
        stated: [None, None, None, None, Some(Ok(Up(10_000)))],
        unit: 1,
    },
    Case {
        name: "Nordic option paper, case 1, area A",
        zone_net: 160_000,
        avoided: None,
        blocks: &[
            Block(0, 74, 6_000, Some(30_000), None),
            Block(75, 149, 36_000, Some(5_000), None),
            Block(150, 224, 0, Some(4_000), None),
            Block(225, 225, 80_000, Some(3_000), None),
            Block(226, 226, 40_000, Some(6_000), None),
        ],
        stated: [
            Some(Ok(Up(4_478))),
            Some(Ok(Up(8_571))),
            Some(Ok(Up(6_000))),
            Some(Ok(Up(30_000))),
            None,
        ],
        unit: 1,
    },
    Case {
        name: "Nordic option paper, case 1, area B",
        zone_net: 160_000,
        avoided: None,
        blocks: &[
            Block(0, 74, 0, Some(30_000), None),
            Block(75, 149, 60_000, Some(5_000), None),
            Block(150, 224, 120_000, Some(4_000), None),
            Block(225, 225, 40_000, Some(3_000), None),
            Block(226, 226, 0, Some(6_000), None),
        ],
        stated: [
            Some(Ok(Up(3_800))),
            Some(Ok(Up(4_333))),
            Some(Ok(Up(3_800))),
            Some(Ok(Up(5_000))),
            None,
        ],
        unit: 1,
    },
    Case {
        name: "Nordic option paper, case 2, area A",
        zone_net: 100_000,
        avoided: None,
        blocks: &[
            Block(0, 74, 6_000, Some(30_000), None),
            Block(75, 149, 36_000, Some(5_000), None),
            Block(150, 224, 0, None, Some(1_000)),
            Block(225, 225, 80_000, Some(3_000), None),
            Block(226, 226, 40_000, Some(6_000), None),
            Block(227, 227, 0, None, Some(1_500)),
        ],
        stated: [
            Some(Ok(Up(4_478))),
            Some(Ok(Up(8_571))),
            Some(Ok(Up(6_000))),
            Some(Ok(Up(30_000))),
            None,
        ],
        unit: 1,
    },
    Case {
        name: "Nordic option paper, case 2, area B",
        zone_net: 100_000,
        avoided: None,
        blocks: &[
            Block(0, 74, 0, Some(30_000), None),
            Block(75, 149, 0, Some(5_000), None),
            Block(150, 224, -60_000, None, Some(1_000)),
            Block(225, 225, 40_000, Some(3_000), None),
            Block(226, 226, 0, Some(6_000), None),
            Block(227, 227, -60_000, None, Some(1_500)),
        ],
        stated: [
            Some(Ok(Down(1_375))),
            Some(Ok(Down(1_000))),
            Some(Ok(Down(1_375))),
            Some(Ok(Down(1_000))),
            None,
        ],
        unit: 1,
    },
    Case {
        name: "Swedish slides, costly direct activation, area A",
        zone_net: 400_000,
        avoided: None,
        blocks: THREE_LEVELS,
        stated: [
            Some(Ok(Up(34_700))),
            Some(Ok(Up(100_000))),
            None,
            Some(Ok(Up(100_000))),
            None,
        ],
        unit: 100,
    },
    Case {
        name: "Swedish slides, costly direct activation, areas B and C",
        zone_net: 400_000,
        avoided: None,
        blocks: NO_DEMAND,
        stated: [None, None, None, None, None],
        unit: 100,
    },
    Case {
        name: "Swedish slides, netted area, area A",
        zone_net: 300_000,
        avoided: Some(5_000),
        blocks: THREE_LEVELS,
        stated: [
            Some(Ok(Up(34_700))),
            Some(Ok(Up(100_000))),
            None,
            Some(Ok(Up(100_000))),
            None,
        ],
        unit: 100,
    },
    Case {
        name: "Swedish slides, netted area, area B",
        zone_net: 300_000,
        avoided: Some(5_000),
        blocks: &[
            Block(0, 74, -50_000, Some(20_000), None),
            Block(75, 149, -50_000, Some(40_000), None),
            Block(150, 224, -50_000, Some(70_000), None),
            Block(225, 225, -100_000, Some(10_000), None),
            Block(226, 226, 0, Some(100_000), None),
        ],
        stated: [
            Some(Ok(Avoided(5_000))),
            Some(Ok(Avoided(5_000))),
            None,
            Some(Ok(Avoided(5_000))),
            None,
        ],
        unit: 100,
    },
    Case {
        name: "Swedish slides, netted area, area C",
        zone_net: 300_000,
        avoided: Some(5_000),
        blocks: NO_DEMAND,
        stated: [
            Some(Ok(Avoided(5_000))),
            Some(Ok(Avoided(5_000))),
            None,
            Some(Ok(Avoided(5_000))),
            None,
        ],
        unit: 100,
    },
    Case {
        name: "Swedish slides, demand both ways, area A",
        zone_net: 500_000,
        avoided: None,
        blocks: THREE_LEVELS,
        stated: [
            Some(Ok(Up(34_700))),
            Some(Ok(Up(100_000))),
            None,
            Some(Ok(Up(100_000))),
            None,
        ],
        unit: 100,
    },
    Case {
        name: "Swedish slides, demand both ways, area B",
        zone_net: 500_000,
        avoided: None,
        blocks: &[
            Block(0, 74, -50_000, Some(20_000), None),
            Block(75, 149, 50_000, Some(40_000), None),
            Block(150, 224, -50_000, Some(70_000), None),
            Block(225, 225, 100_000, Some(10_000), None),
            Block(226, 226, 0, Some(100_000), None),
        ],
        stated: [
            Some(Ok(Up(14_300))),
            Some(Ok(Up(40_000))),
            None,
            Some(Ok(Up(40_000))),
            None,
        ],
        unit: 100,
    },
];

impl Block {
    fn slot(&self, place: usize) -> Option<Plain> {
        let Block(first, last, kw, up, down) = *self;
        (first..=last).contains(&place).then_some(Plain {
            kw: Some(kw),
            up,
            down,
        })
    }
}

// Cents to the nearest `unit`.
fn rounded(cents: i64, unit: u32) -> i64 {
    let units = Fraction::new(i128::from(cents), u64::from(unit));
    units.map_or(0, |units| units.nearest().saturating_mul(i64::from(unit)))
}

// A quote as a table prints it that has no smaller unit.
fn coarse(quote: Quote, unit: u32) -> Quote {
    match quote {
        Up(cents) => Up(rounded(cents, unit)),
        Down(cents) => Down(rounded(cents, unit)),
        Avoided(cents) => Avoided(rounded(cents, unit)),
    }
}

impl Case {
    fn slot(&self, place: usize) -> Plain {
        let told = self.blocks.iter().find_map(|block| block.slot(place));
        told.unwrap_or(IDLE)
    }

    pub(crate) fn quarter(&self) -> Quarter {
        Quarter {
            slots: array::from_fn(|place| self.slot(place)),
            zone_net: self.zone_net,
            avoided: self.avoided,
        }
    }

    /// Whether the answers with so many incentive components are those that are stated.
    pub(crate) fn is_met(&self, quarter: &Quarter, incentives: u16, stated: &Stated) -> bool {
        RULES.iter().zip(stated.iter()).all(|(rules, stated)| {
            let answer = quote_of(quarter, rules.under(incentives));
            let answer = answer.map(|quote| coarse(quote, self.unit));
            stated.is_none_or(|stated| answer == stated)
        })
    }
}
