// Works out prices, payments and the order of bids a second way, and compares each with what the library gives. There is a
// line for each named case and for each span of the others, and a closing count.
#![tactic(auto)]

mod answers;
mod compare;
mod day;
mod edges;
mod fault;
mod fraction;
mod generator;
mod ledger;
mod merit;
mod merit_edges;
mod merit_runs;
mod outcome;
mod plain;
mod published;
mod reader;
mod report;
mod rules;
mod side;
mod writer;

use command::{Failure, Manual, Status, Takes, ended_by_words, status_of};
use compare::{compare_sheet, same_table};
use day::{Day, Metered};
use edges::{edges, rulebooks};
use generator::{Dice, KINDS};
use merit_edges::ladder_edges;
use merit_runs::ladder_runs;
use published::CASES;
use reader::read;
use report::{Met, Report};
use std::io;
use std::process::ExitCode;
use writer::sheet_of;

// Each avoided value is absent or no more extreme than a price, so with the incentive component the same is stated.
fn quarters(report: &mut Report<'_>) -> io::Result<()> {
    for case in CASES.iter() {
        report.case(case, &case.stated)?;
    }
    Ok(())
}

/// A sheet of a front and 229 zero bytes, and the zone net that it has to tell.
#[derive(Clone, Copy)]
struct Zeros {
    name: &'static str,
    front: &'static [u8],
    zone_net: i64,
}

static ZEROS: [Zeros; 6] = [
    Zeros {
        name: "the opening and 230 zero bytes",
        front: b"ISP1\x00",
        zone_net: 0,
    },
    Zeros {
        name: "the opening and 229 zero bytes",
        front: b"ISP1",
        zone_net: 0,
    },
    Zeros {
        name: "zone net 0, stored as 00",
        front: b"ISP1\x00",
        zone_net: 0,
    },
    Zeros {
        name: "zone net -1, stored as 01",
        front: b"ISP1\x01",
        zone_net: -1,
    },
    Zeros {
        name: "zone net 64, stored as 80 01",
        front: b"ISP1\x80\x01",
        zone_net: 64,
    },
    Zeros {
        name: "zone net stored as 80 00",
        front: b"ISP1\x80\x00",
        zone_net: 0,
    },
];

fn sheets(report: &mut Report<'_>) -> io::Result<()> {
    for zeros in ZEROS.iter() {
        let mut sheet = Vec::from_slice(report.heap(), zeros.front)?;
        sheet.extend_from_slice(&[0; 229])?;
        let both = compare_sheet(report.heap(), sheet.as_slice())?;
        let told = read(sheet.as_slice()).quarter.zone_net;
        let met = Met {
            alone: told == zeros.zone_net,
            with_incentive: true,
        };
        report.named(zeros.name, &both, met)?;
    }
    Ok(())
}

/// A quarter is priced, a party metered in it and then settled, for the cents that are stated.
#[derive(Clone, Copy)]
struct Payment {
    name: &'static str,
    period: usize,
    party: usize,
    kwh: i64,
    cents: i64,
    stated: i64,
}

static PAYMENTS: [Payment; 4] = [
    Payment {
        name: "1 kWh at 5.00 in period 0",
        period: 0,
        party: 0,
        kwh: 1,
        cents: 500,
        stated: 1,
    },
    Payment {
        name: "1 kWh at 5.00 in period 1, settled next",
        period: 1,
        party: 0,
        kwh: 1,
        cents: 500,
        stated: 0,
    },
    Payment {
        name: "3,750 kWh at 50.00",
        period: 2,
        party: 1,
        kwh: 3_750,
        cents: 5_000,
        stated: 18_750,
    },
    Payment {
        name: "-25,000 kWh at 70.00",
        period: 3,
        party: 2,
        kwh: -25_000,
        cents: 7_000,
        stated: -175_000,
    },
];

fn payments(report: &mut Report<'_>) -> io::Result<()> {
    let mut day = Day::start();
    for payment in PAYMENTS.iter() {
        let metered = Metered {
            schedules: [0, 0],
            allocated: payment.kwh,
            adjustment: 0,
        };
        let priced = day.price(payment.period, payment.cents).agree();
        let taken = day.meter(payment.period, payment.party, &metered).agree();
        let paid = day.settle(payment.party);
        report.payment(payment.name, &paid, priced && taken, payment.stated)?;
    }
    Ok(())
}

fn calls(report: &mut Report<'_>, dice: &mut Dice) -> io::Result<()> {
    let mut day = Day::start();
    for number in 0..2_000u64 {
        let replies = day.any_call(dice);
        report.call(number, &replies)?;
    }
    Ok(())
}

// Every third quarter is damaged as a sheet.
fn generated(report: &mut Report<'_>, dice: &mut Dice) -> io::Result<()> {
    for (number, kind) in (0..2_100u64).zip(KINDS.iter().cycle()) {
        let quarter = dice.quarter(*kind);
        let table = same_table(report.heap(), &quarter)?;
        let whole = sheet_of(report.heap(), &quarter)?;
        let damaged = dice.damaged(report.heap(), whole.as_slice())?;
        let sheet = if number % 3 == 2 {
            damaged.as_slice()
        } else {
            whole.as_slice()
        };
        let both = compare_sheet(report.heap(), sheet)?;
        report.generated(number, sheet, &both, table)?;
    }
    Ok(())
}

const MANUAL: Manual = Manual {
    name: "rival",
    summary: "prices, payments and the order of bids worked out a second way, and compared with the library's",
    takes: Takes {
        file: false,
        strict: false,
    },
    reads: "nothing",
    writes: "a line for each named case and for each hundred of the others, and a closing count",
    example: "rival",
};

fn compare_all(rt: &HostRuntime) -> io::Result<bool> {
    let mut report = Report::new(rt);
    let mut dice = Dice::new();
    quarters(&mut report)?;
    edges(&mut report)?;
    rulebooks(&mut report)?;
    sheets(&mut report)?;
    payments(&mut report)?;
    calls(&mut report, &mut dice)?;
    ladder_edges(&mut report)?;
    generated(&mut report, &mut dice)?;
    ladder_runs(&mut report, &mut dice)?;
    report.close()
}

// A difference is a refusal of what was compared.
fn answer(rt: &HostRuntime) -> Result<Status, Failure> {
    if compare_all(rt).map_err(Failure::Output)? {
        Ok(Status::Answered)
    } else {
        Ok(Status::Refused)
    }
}

fn main(rt: HostRuntime) -> ExitCode {
    match ended_by_words(&rt, MANUAL) {
        Some(status) => status,
        None => status_of(&rt, MANUAL.name, answer(&rt)),
    }
}
