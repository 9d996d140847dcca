// Runs of calls on ladders: calls that are drawn from the sequence, and ladders that are filled and drained.
use crate::generator::Dice;
use crate::merit::{Call, KW, MOST_NUMBER, MeritList, Offer};
use crate::plain::PRICE;
use crate::report::Report;
use crate::side::{Side, Sided};
use bids::{DownBid, UpBid};
use std::io;

/// How the calls of a run are drawn.
#[derive(Clone, Copy)]
enum Mix {
    /// Few numbers and prices, so that numbers come again and prices tie.
    Narrow,
    /// Anywhere in bounds; most numbers that are withdrawn stand.
    Wide,
    /// The ladder is filled at rising prices, of which two tie, and drained.
    Rising,
    /// The same at falling prices.
    Falling,
    /// The same at prices anywhere in bounds.
    Anywhere,
}

/// So many calls over a memory of so many places, of which each ladder takes so many at once.
#[derive(Clone, Copy)]
struct Run {
    places: u16,
    mix: Mix,
    calls: u64,
    at_once: usize,
}

// What fills a ladder: an offer for each place, four more, and then four whose numbers stand.
const FILLING: u64 = 520;

const NUMBERS: u64 = 516;

// Numbers at their bounds and beyond.
static QUANTITIES: [i64; 6] = [i64::MIN, 0, 1, 10_000_000, 10_000_001, i64::MAX];

static NUMBERS_BEYOND: [i64; 6] = [i64::MIN, -1, 0, MOST_NUMBER, 65_536, i64::MAX];

// The numbers of a ladder that is filled: all are different, in no order.
fn nth_number(nth: u64) -> u16 {
    (nth.wrapping_mul(40_503) % 65_536) as u16
}

impl Dice {
    fn below(&mut self, sides: u64) -> i64 {
        i64::try_from(self.roll(sides)).unwrap_or(0)
    }

    fn one_of(&mut self, numbers: &[i64]) -> i64 {
        let place = self.roll(numbers.len() as u64) as usize;
        numbers.get(place).copied().unwrap_or(0)
    }

    // A number that stands, if any does.
    fn standing(&mut self, list: &MeritList) -> Option<i64> {
        let place = self.roll(list.offers().len() as u64) as usize;
        list.offers().get(place).map(|offer| offer.number)
    }

    fn quantity_within(&mut self) -> i64 {
        let [least, most] = KW;
        self.below(most.unsigned_abs()).saturating_add(least)
    }

    fn quantity(&mut self) -> i64 {
        match self.roll(12) {
            0 => self.one_of(&QUANTITIES),
            _ => self.quantity_within(),
        }
    }

    // A narrow number is below one and a half times the places and three more.
    fn bid_number(&mut self, run: &Run, list: &MeritList) -> i64 {
        let few = u64::from(run.places.min(512)) * 3 / 2 + 3;
        match (run.mix, self.roll(12)) {
            (_, 0) => self.one_of(&NUMBERS_BEYOND),
            (Mix::Narrow, _) => self.below(few),
            (_, 1) => self.standing(list).unwrap_or(0),
            _ => self.below(65_536),
        }
    }

    fn drawn_call(&mut self, run: &Run, list: &MeritList) -> Call {
        let bound = match run.mix {
            Mix::Narrow => 1,
            _ => PRICE,
        };
        if self.roll(5) != 0 {
            return Call::Add(Offer {
                cents: self.within(bound),
                kw: self.quantity(),
                number: self.bid_number(run, list),
            });
        }
        let number = match run.mix {
            Mix::Wide if self.roll(4) != 0 => self.standing(list).unwrap_or(0),
            _ => self.bid_number(run, list),
        };
        Call::Withdraw(u16::try_from(number).unwrap_or(0))
    }

    // The nth call of a run that fills a ladder and drains it.
    fn filling_call(&mut self, nth: u64, cents: i64) -> Call {
        match nth.checked_sub(FILLING) {
            Some(nth) => Call::Withdraw(nth_number(nth)),
            None => Call::Add(Offer {
                cents,
                kw: self.quantity_within(),
                number: i64::from(nth_number(nth % NUMBERS)),
            }),
        }
    }

    fn nth_call(&mut self, run: &Run, nth: u64, list: &MeritList) -> Call {
        let step = (nth / 2) as i64;
        match run.mix {
            Mix::Narrow | Mix::Wide => self.drawn_call(run, list),
            Mix::Rising => self.filling_call(nth, step),
            Mix::Falling => self.filling_call(nth, step.wrapping_neg()),
            Mix::Anywhere => {
                let cents = self.within(PRICE);
                self.filling_call(nth, cents)
            }
        }
    }
}

impl Run {
    fn play<T: Sided>(&self, report: &mut Report<'_>, dice: &mut Dice) -> io::Result<()> {
        let mut side = Side::<T>::new(report.heap(), self.places)?;
        let mut calls = Vec::new(report.heap());
        for nth in 0..self.calls {
            calls.push(dice.nth_call(self, nth, side.list()))?;
            if calls.len() >= self.at_once {
                for called in side.play(report.heap(), calls.as_slice())?.iter() {
                    report.ladder_call(called)?;
                }
                calls.clear();
            }
        }
        Ok(())
    }

    fn play_both(&self, report: &mut Report<'_>, dice: &mut Dice) -> io::Result<()> {
        self.play::<UpBid>(report, dice)?;
        self.play::<DownBid>(report, dice)
    }
}

fn drawn_runs(report: &mut Report<'_>, dice: &mut Dice) -> io::Result<()> {
    for (places, calls) in [
        (0, 500),
        (1, 500),
        (3, 500),
        (16, 500),
        (512, 1_815),
        (600, 1_815),
    ] {
        for mix in [Mix::Narrow, Mix::Wide] {
            let run = Run {
                places,
                mix,
                calls,
                at_once: 1,
            };
            run.play_both(report, dice)?;
        }
    }
    Ok(())
}

// Over 512 places each call is made on a ladder of its own, over 600 all are made on one.
fn filling_runs(report: &mut Report<'_>, dice: &mut Dice) -> io::Result<()> {
    for (places, at_once) in [(512, 1), (600, 1_040)] {
        for mix in [Mix::Rising, Mix::Falling, Mix::Anywhere] {
            let run = Run {
                places,
                mix,
                calls: 1_040,
                at_once,
            };
            run.play_both(report, dice)?;
        }
    }
    Ok(())
}

/// Each run over a ladder of each direction.
pub(crate) fn ladder_runs(report: &mut Report<'_>, dice: &mut Dice) -> io::Result<()> {
    drawn_runs(report, dice)?;
    filling_runs(report, dice)
}
