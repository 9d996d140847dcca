// Lays the netting fill over a packed sheet, and writes the filled sheet.
#![tactic(auto)]

use command::{Failure, Manual, Program, Status, Takes, run};
use sheet::{Sheet, read_deciding};
use source::NettingFill;
use std::io::Read;
use std::process::ExitCode;
use std::rt::Runtime;
use writing::sheet_vec;

struct Netted;

impl Program for Netted {
    fn manual(&self) -> Manual<'_> {
        Manual {
            name: "netted",
            summary: "the avoided value as the price of demand that was met by netting",
            takes: Takes {
                file: true,
                strict: false,
            },
            reads: "a packed sheet",
            writes: "the packed sheet with the prices filled in; a refused sheet is named on standard error, by !, the number and the place of its refusal",
            example: "pack examples/netted-demand.quarter | netted | quarter",
        }
    }

    fn answer<R: Runtime + AllocGlobal, I: Read + Drop>(
        &self,
        rt: &R,
        input: I,
        _strict: bool,
    ) -> Result<Status, Failure> {
        let bytes = read_deciding(rt.alloc(), input).map_err(Failure::Input)?;
        let sheet = Sheet::read(bytes.as_slice());
        if let Err(fault) = sheet.check() {
            let _ = eprintln!(rt; "{fault}");
            return Ok(Status::Refused);
        }
        let filled = sheet_vec(rt.alloc(), &NettingFill { below: sheet })?;
        rt.write_all(filled.as_slice()).map_err(Failure::Output)?;
        Ok(Status::Answered)
    }
}

fn main(rt: HostRuntime) -> ExitCode {
    run(&rt, &Netted)
}
