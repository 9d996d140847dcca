// A rink's afternoon in small: four quarters are priced, two parties metered and settled, a meter value comes
// late, and both are settled again. Each call of the book is one line.
#![tactic(auto)]

mod afternoon;
mod halt;
mod step;
mod tables;

use afternoon::Afternoon;
use command::{Failure, Manual, Status, Takes, ended_by_words, status_of};
use halt::Halt;
use metering::MeterValues;
use std::process::ExitCode;
use tables::QUARTERS;

const RINK: usize = 0;

const HALL: usize = 1;

// The rink's value for the last quarter is still missing.
fn meter_all(afternoon: &mut Afternoon<'_>) -> Result<(), Halt> {
    let rink = MeterValues {
        schedules: &[-900, -350],
        allocated: -1_262,
        adjustment: 0,
    };
    let hall = MeterValues {
        schedules: &[-400],
        allocated: -380,
        adjustment: 15,
    };
    for period in 0..3 {
        afternoon.meter(period, RINK, &rink)?;
    }
    for period in 0..4 {
        afternoon.meter(period, HALL, &hall)?;
    }
    Ok(())
}

// A value for an open quarter is taken; one for a closed quarter is refused.
fn late_value(afternoon: &mut Afternoon<'_>) -> Result<(), Halt> {
    let late = MeterValues {
        schedules: &[-900, -350],
        allocated: -1_197,
        adjustment: 0,
    };
    afternoon.meter(3, RINK, &late)?;
    afternoon.meter(0, RINK, &late)
}

const MANUAL: Manual = Manual {
    name: "late_meter",
    summary: "a rink's afternoon in the area's book, with a meter value that comes late",
    takes: Takes {
        file: false,
        strict: false,
    },
    reads: "nothing",
    writes: "a line for each call of the book",
    example: "late_meter",
};

fn all_calls(rt: &HostRuntime) -> Result<(), Halt> {
    let mut afternoon = Afternoon::start(rt, QUARTERS.len(), 2)?;
    for (period, told) in QUARTERS.iter().enumerate() {
        afternoon.price(period, told)?;
    }
    meter_all(&mut afternoon)?;
    afternoon.close(0)?;
    afternoon.settle(RINK)?;
    afternoon.settle(HALL)?;
    late_value(&mut afternoon)?;
    afternoon.settle(RINK)?;
    afternoon.settle(HALL)
}

// A call that the book refuses is said on standard error.
fn answer(rt: &HostRuntime) -> Result<Status, Failure> {
    match all_calls(rt) {
        Ok(()) => Ok(Status::Answered),
        Err(Halt::Io(error)) => Err(Failure::Output(error)),
        Err(halt) => {
            let _ = eprintln!(rt; "late_meter: {halt}");
            Ok(Status::Refused)
        }
    }
}

fn main(rt: HostRuntime) -> ExitCode {
    match ended_by_words(&rt, MANUAL) {
        Some(status) => status,
        None => status_of(&rt, MANUAL.name, answer(&rt)),
    }
}
