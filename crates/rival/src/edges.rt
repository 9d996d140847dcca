// The edges of the incentive component: avoided values at the bounds, at an exact price and between two cents, rulebooks
// from outside the library, and the highest codes. What is stated is worked by hand.
use crate::answers::{Answer, Answers};
use crate::published::{Block, Case, DOWNWARD, MANUAL_ACTIVATED, Stated, THREE_LEVELS};
use crate::report::Report;
use crate::rules::{Asked, Direction, Quote, REFERENCE, Rules};
use crate::writer::sheet_of;
use pricing::{Finnish, Rulebook};
use quarter_tests::{Referenced, UnderCode};
use sheet::Sheet;
use std::io;
use units::{Price, Quantity};

/// An avoided value, and what is stated with it: the cents under codes 11 to 15.
#[derive(Clone, Copy)]
struct Edge {
    name: &'static str,
    avoided: Option<i64>,
    cents: [i64; 5],
}

/// A quarter with several avoided values; whatever that is, `alone` are the cents under codes 1 to 5.
#[derive(Clone, Copy)]
struct Edged {
    zone_net: i64,
    direction: Direction,
    blocks: &'static [Block],
    alone: [i64; 5],
    edges: &'static [Edge],
}

// The three price levels with each demand and each price of the other sign.
const MIRRORED_LEVELS: &[Block] = &[
    Block(0, 74, -100_000, None, Some(-20_000)),
    Block(75, 149, -100_000, None, Some(-40_000)),
    Block(150, 224, -100_000, None, Some(-70_000)),
    Block(225, 225, -300_000, None, Some(-10_000)),
    Block(227, 227, -100_000, None, Some(-100_000)),
];

static EDGED: [Edged; 3] = [
    Edged {
        zone_net: 400_000,
        direction: Direction::Up,
        blocks: THREE_LEVELS,
        alone: [34_667, 100_000, 100_000, 100_000, 34_667],
        edges: &[
            Edge {
                name: "three price levels, no avoided value",
                avoided: None,
                cents: [34_667, 100_000, 100_000, 100_000, 34_667],
            },
            Edge {
                name: "three price levels, avoided value 346.66, below 346 2/3",
                avoided: Some(34_666),
                cents: [34_667, 100_000, 100_000, 100_000, 34_667],
            },
            Edge {
                name: "three price levels, avoided value 346.67, above 346 2/3",
                avoided: Some(34_667),
                cents: [34_667, 100_000, 100_000, 100_000, 34_667],
            },
            Edge {
                name: "three price levels, avoided value 700.00, between the prices",
                avoided: Some(70_000),
                cents: [70_000, 100_000, 100_000, 100_000, 70_000],
            },
            Edge {
                name: "three price levels, avoided value 1000.00, equal to that of codes 2 to 4",
                avoided: Some(100_000),
                cents: [100_000, 100_000, 100_000, 100_000, 100_000],
            },
            Edge {
                name: "three price levels, avoided value 99999.00, the upper bound",
                avoided: Some(9_999_900),
                cents: [9_999_900, 9_999_900, 9_999_900, 9_999_900, 9_999_900],
            },
            Edge {
                name: "three price levels, avoided value -99999.00, the lower bound",
                avoided: Some(-9_999_900),
                cents: [34_667, 100_000, 100_000, 100_000, 34_667],
            },
        ],
    },
    Edged {
        zone_net: -400_000,
        direction: Direction::Down,
        blocks: MIRRORED_LEVELS,
        alone: [-34_667, -100_000, -100_000, -100_000, -34_667],
        edges: &[
            Edge {
                name: "mirrored price levels, avoided value -346.66, above -346 2/3",
                avoided: Some(-34_666),
                cents: [-34_667, -100_000, -100_000, -100_000, -34_667],
            },
            Edge {
                name: "mirrored price levels, avoided value -346.67, below -346 2/3",
                avoided: Some(-34_667),
                cents: [-34_667, -100_000, -100_000, -100_000, -34_667],
            },
            Edge {
                name: "mirrored price levels, avoided value -700.00, between the prices",
                avoided: Some(-70_000),
                cents: [-70_000, -100_000, -100_000, -100_000, -70_000],
            },
            Edge {
                name: "mirrored price levels, avoided value -99999.00, the lower bound",
                avoided: Some(-9_999_900),
                cents: [-9_999_900, -9_999_900, -9_999_900, -9_999_900, -9_999_900],
            },
            Edge {
                name: "mirrored price levels, avoided value 99999.00, the upper bound",
                avoided: Some(9_999_900),
                cents: [-34_667, -100_000, -100_000, -100_000, -34_667],
            },
        ],
    },
    Edged {
        zone_net: -400_000,
        direction: Direction::Down,
        blocks: DOWNWARD,
        alone: [3_200, 2_000, 3_200, 2_000, 3_200],
        edges: &[
            Edge {
                name: "Finnish note, 15:15, avoided value 32.00, equal to that of codes 1, 3 and 5",
                avoided: Some(3_200),
                cents: [3_200, 2_000, 3_200, 2_000, 3_200],
            },
            Edge {
                name: "Finnish note, 15:15, avoided value 25.00, between the prices",
                avoided: Some(2_500),
                cents: [2_500, 2_000, 2_500, 2_000, 2_500],
            },
        ],
    },
];

impl Edged {
    fn stated(&self, cents: [i64; 5]) -> Stated {
        cents.map(|cents| Some(Ok(self.direction.quote(cents))))
    }

    fn case(&self, edge: &Edge) -> Case {
        Case {
            name: edge.name,
            zone_net: self.zone_net,
            avoided: edge.avoided,
            blocks: self.blocks,
            stated: self.stated(self.alone),
            unit: 1,
        }
    }
}

pub(crate) fn edges(report: &mut Report<'_>) -> io::Result<()> {
    for edged in EDGED.iter() {
        for edge in edged.edges.iter() {
            report.case(&edged.case(edge), &edged.stated(edge.cents))?;
        }
    }
    Ok(())
}

// 15:00 of the Finnish note, with an avoided value above all of its exact prices but 100.00.
static LIFTED: Case = Case {
    name: "Finnish note, 15:00, avoided value 90.00",
    zone_net: 200_000,
    avoided: Some(9_000),
    blocks: MANUAL_ACTIVATED,
    stated: [None, None, None, None, None],
    unit: 1,
};

// One rulebook with no, one and two incentive components: what is stated are the codes, the cents of the rulebook alone,
// and 90.00 above it.
fn quoted<R: Rulebook + Clone + Copy + Drop>(
    report: &mut Report<'_>,
    name: &str,
    rulebook: R,
    own: Asked,
    stated: [(u16, i64); 3],
) -> io::Result<()> {
    let quarter = LIFTED.quarter();
    let sheet = sheet_of(report.heap(), &quarter)?;
    let answers = Answers::new(&Sheet::read(sheet.as_slice()), &quarter, rulebook, own);
    let wanted = stated.map(|(code, cents)| Answer {
        code,
        quote: Ok(Quote::Up(cents)),
    });
    report.rulebook(name, &answers, answers.rival == wanted)
}

// The Finnish edition under a code of its own.
fn coded<const N: u16>(report: &mut Report<'_>, name: &str, codes: [u16; 3]) -> io::Result<()> {
    let [alone, once, twice] = codes;
    quoted(
        report,
        name,
        UnderCode::<Finnish, N> { rulebook: Finnish },
        Asked {
            code: N,
            ..Rules::Finnish.under(0)
        },
        [(alone, 6_429), (once, 9_000), (twice, 9_000)],
    )
}

pub(crate) fn rulebooks(report: &mut Report<'_>) -> io::Result<()> {
    if let Ok(reference) = Price::new(REFERENCE) {
        quoted(
            report,
            "a reference price of 80.00",
            Referenced { reference },
            Rules::Referenced.under(0),
            [(31, 8_000), (41, 9_000), (51, 9_000)],
        )?;
    }
    coded::<65_515>(report, "code 65,515", [65_515, 65_525, 65_535])?;
    coded::<65_524>(report, "code 65,524", [65_524, 65_534, 65_535])?;
    coded::<65_525>(report, "code 65,525", [65_525, 65_535, 65_535])?;
    coded::<65_530>(report, "code 65,530", [65_530, 65_535, 65_535])?;
    coded::<65_535>(report, "code 65,535", [65_535, 65_535, 65_535])
}
