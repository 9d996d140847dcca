// What becomes of the generated sheets and of the calls on ladders, counted.
use crate::fault::{Fault, Refusal};
use crate::merit::Done;
use crate::reader::Told;
use crate::rules::{Quote, Rules, quote_of};
use std::fmt;

/// A refused sheet, or the quote under code 1.
#[derive(Clone, Copy, PartialEq, Eq)]
pub(crate) enum Outcome {
    Sheet(Refusal),
    Quote(Refusal),
    Up,
    Down,
    Avoided,
}

impl Outcome {
    pub(crate) fn of(told: &Told) -> Outcome {
        if let Err(fault) = told.check {
            return Outcome::Sheet(fault.refusal);
        }
        match quote_of(&told.quarter, Rules::WeightedAverage.under(0)) {
            Ok(Quote::Up(_)) => Outcome::Up,
            Ok(Quote::Down(_)) => Outcome::Down,
            Ok(Quote::Avoided(_)) => Outcome::Avoided,
            Err(fault) => Outcome::Quote(fault.refusal),
        }
    }
}

/// What the incentive component does to the quote of code 1.
#[derive(Clone, Copy)]
pub(crate) enum Effect {
    Lifted,
    Lowered,
    Nothing,
}

impl Effect {
    /// Nothing of a refused sheet.
    pub(crate) fn of(told: &Told) -> Effect {
        if told.check.is_err() {
            return Effect::Nothing;
        }
        let alone = quote_of(&told.quarter, Rules::WeightedAverage.under(0));
        let above = quote_of(&told.quarter, Rules::WeightedAverage.under(1));
        match (alone, above) {
            (Ok(Quote::Up(below)), Ok(Quote::Up(cents))) if cents > below => Effect::Lifted,
            (Ok(Quote::Down(below)), Ok(Quote::Down(cents))) if cents < below => Effect::Lowered,
            _ => Effect::Nothing,
        }
    }
}

impl fmt::Display for Outcome {
    fn fmt<W: fmt::Write>(&self, f: &mut fmt::Formatter<W>) -> fmt::Result {
        match *self {
            Outcome::Sheet(refusal) => write!(f, "refusal {}", refusal.number()),
            Outcome::Quote(refusal) => write!(f, "code 1, refusal {}", refusal.number()),
            Outcome::Up => write!(f, "code 1 up"),
            Outcome::Down => write!(f, "code 1 down"),
            Outcome::Avoided => write!(f, "code 1 avoided"),
        }
    }
}

// The outcomes in the order in which they are printed.
static OUTCOMES: [Outcome; 11] = [
    Outcome::Sheet(Refusal::Ends),
    Outcome::Sheet(Refusal::Opening),
    Outcome::Sheet(Refusal::Form),
    Outcome::Sheet(Refusal::UnknownByte),
    Outcome::Sheet(Refusal::Bounds),
    Outcome::Sheet(Refusal::After),
    Outcome::Quote(Refusal::Unreported),
    Outcome::Quote(Refusal::NoAvoided),
    Outcome::Up,
    Outcome::Down,
    Outcome::Avoided,
];

/// How often an outcome came.
#[derive(Clone, Copy)]
pub(crate) struct Tally {
    pub outcome: Outcome,
    pub count: u64,
}

/// A count for each outcome, and one for all that no sheet is to have; and how often code 11 differs from code 1.
#[derive(Clone, Copy)]
pub(crate) struct Tallies {
    pub other: u64,
    pub rows: [Tally; 11],
    pub lifted: u64,
    pub lowered: u64,
}

impl Tallies {
    pub(crate) fn new() -> Tallies {
        Tallies {
            other: 0,
            rows: OUTCOMES.map(|outcome| Tally { outcome, count: 0 }),
            lifted: 0,
            lowered: 0,
        }
    }

    pub(crate) fn add(&mut self, outcome: Outcome, effect: Effect) {
        match effect {
            Effect::Lifted => self.lifted = self.lifted.saturating_add(1),
            Effect::Lowered => self.lowered = self.lowered.saturating_add(1),
            Effect::Nothing => {}
        }
        for row in self.rows.iter_mut() {
            if row.outcome == outcome {
                row.count = row.count.saturating_add(1);
                return;
            }
        }
        self.other = self.other.saturating_add(1);
    }
}

/// How often a call on a ladder was refused so.
#[derive(Clone, Copy)]
pub(crate) struct Refused {
    pub refusal: Refusal,
    pub count: u64,
}

/// The calls on ladders: those that are accepted, and those that are refused, by refusal.
#[derive(Clone, Copy)]
pub(crate) struct LadderTallies {
    pub added: u64,
    pub withdrawn: u64,
    pub refused: [Refused; 5],
}

// The refusals in the order in which they are printed.
static LADDER_REFUSALS: [Refusal; 5] = [
    Refusal::Bounds,
    Refusal::Full,
    Refusal::Standing,
    Refusal::NotStanding,
    Refusal::BidQuantity,
];

impl LadderTallies {
    pub(crate) fn new() -> LadderTallies {
        LadderTallies {
            added: 0,
            withdrawn: 0,
            refused: LADDER_REFUSALS.map(|refusal| Refused { refusal, count: 0 }),
        }
    }

    pub(crate) fn add(&mut self, answer: Result<Done, Fault>) {
        match answer {
            Ok(Done::Added(_)) => self.added = self.added.saturating_add(1),
            Ok(Done::Withdrawn(_)) => self.withdrawn = self.withdrawn.saturating_add(1),
            Err(fault) => {
                for row in self.refused.iter_mut() {
                    if row.refusal == fault.refusal {
                        row.count = row.count.saturating_add(1);
                    }
                }
            }
        }
    }

    /// How many calls were counted.
    pub(crate) fn calls(&self) -> u64 {
        let accepted = self.added.saturating_add(self.withdrawn);
        let refused = self.refused.iter();
        refused.fold(accepted, |sum, row| sum.saturating_add(row.count))
    }
}
