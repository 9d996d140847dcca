// The named ladders. What is stated is worked by hand.
use crate::fault::{Fault, Refusal};
use crate::merit::{Call, Done, Offer};
use crate::report::Report;
use crate::side::{Side, Sided};
use bids::{DownBid, UpBid};
use std::io;

/// Calls on a ladder of so many places, what the last of them answers, and the numbers that stand then, in order.
#[derive(Clone, Copy)]
struct Edge<'a> {
    name: &'a str,
    places: u16,
    calls: &'a [Call],
    answer: Result<Done, Fault>,
    numbers: &'a [i64],
}

// A bid of 5,000 kW is added.
fn add(cents: i64, number: i64) -> Call {
    Call::Add(Offer {
        cents,
        kw: 5_000,
        number,
    })
}

impl Edge<'_> {
    fn play<T: Sided>(&self, report: &mut Report<'_>) -> io::Result<()> {
        let mut side = Side::<T>::new(report.heap(), self.places)?;
        let answers = side.play(report.heap(), self.calls)?;
        let offers = side.list().offers();
        let mut both = offers.iter().zip(self.numbers.iter());
        let stated = offers.len() == self.numbers.len()
            && both.all(|(offer, number)| offer.number == *number);
        report.ladder(self.name, answers.as_slice(), offers, self.answer, stated)
    }
}

fn ladders(report: &mut Report<'_>) -> io::Result<()> {
    Edge {
        name: "three up bids of 5,000 kW",
        places: 512,
        calls: &[add(4_100, 3), add(3_500, 1), add(3_800, 2)],
        answer: Ok(Done::Added(1)),
        numbers: &[1, 2, 3],
    }
    .play::<UpBid>(report)?;
    Edge {
        name: "five down bids of 5,000 kW",
        places: 512,
        calls: &[
            add(1_100, 5),
            add(2_800, 2),
            add(1_400, 4),
            add(3_100, 1),
            add(1_500, 3),
        ],
        answer: Ok(Done::Added(2)),
        numbers: &[1, 2, 3, 4, 5],
    }
    .play::<DownBid>(report)
}

fn ties(report: &mut Report<'_>) -> io::Result<()> {
    let tied = Edge {
        name: "equal prices, up",
        places: 3,
        calls: &[add(4_000, 7), add(4_000, 9), add(4_000, 3)],
        answer: Ok(Done::Added(0)),
        numbers: &[3, 7, 9],
    };
    tied.play::<UpBid>(report)?;
    Edge {
        name: "equal prices, down",
        ..tied
    }
    .play::<DownBid>(report)
}

fn refusals(report: &mut Report<'_>) -> io::Result<()> {
    let full = Edge {
        name: "a number that stands on a full ladder",
        places: 1,
        calls: &[add(100, 6), add(200, 6)],
        answer: Err(Refusal::Standing.at(6)),
        numbers: &[6],
    };
    full.play::<UpBid>(report)?;
    Edge {
        name: "another number on a full ladder",
        calls: &[add(100, 6), add(200, 7)],
        answer: Err(Refusal::Full.at(1)),
        ..full
    }
    .play::<UpBid>(report)?;
    Edge {
        name: "a place used again",
        calls: &[add(100, 6), Call::Withdraw(6), add(200, 7)],
        answer: Ok(Done::Added(0)),
        numbers: &[7],
        ..full
    }
    .play::<DownBid>(report)
}

fn no_places(report: &mut Report<'_>) -> io::Result<()> {
    let added = Edge {
        name: "a bid in a memory of 0 places",
        places: 0,
        calls: &[add(100, 6)],
        answer: Err(Refusal::Full.at(0)),
        numbers: &[],
    };
    added.play::<UpBid>(report)?;
    Edge {
        name: "a withdrawing from a memory of 0 places",
        calls: &[Call::Withdraw(6)],
        answer: Err(Refusal::NotStanding.at(6)),
        ..added
    }
    .play::<DownBid>(report)
}

fn bounds(report: &mut Report<'_>) -> io::Result<()> {
    let beyond = Offer {
        cents: 100,
        kw: 0,
        number: 65_536,
    };
    let refused = Edge {
        name: "quantity and number out of bounds",
        places: 1,
        calls: &[Call::Add(beyond)],
        answer: Err(Refusal::BidQuantity.at(0)),
        numbers: &[],
    };
    refused.play::<UpBid>(report)?;
    Edge {
        name: "a number out of bounds",
        calls: &[add(100, 65_536)],
        answer: Err(Refusal::Bounds.at(3)),
        ..refused
    }
    .play::<UpBid>(report)
}

pub(crate) fn ladder_edges(report: &mut Report<'_>) -> io::Result<()> {
    ladders(report)?;
    ties(report)?;
    refusals(report)?;
    no_places(report)?;
    bounds(report)
}
