// Prints a line for each record of a packed sheet.
#![tactic(auto)]

use command::{Failure, Manual, Program, Status, Takes, run};
use lines::RecordLines;
use sheet::{Sheet, read_deciding};
use std::io::Read;
use std::process::ExitCode;
use std::rt::Runtime;

struct Records;

impl Program for Records {
    fn manual(&self) -> Manual<'_> {
        Manual {
            name: "records",
            summary: "the records of a packed sheet, one after another",
            takes: Takes {
                file: true,
                strict: false,
            },
            reads: "a packed sheet",
            writes: "a line for each record: its slot, the place of its first byte, that byte, and the bytes after it in hexadecimal; and !, the number and the place of the first fault, if there is one",
            example: "records examples/damaged.sheet",
        }
    }

    fn answer<R: Runtime + AllocGlobal, I: Read + Drop>(
        &self,
        rt: &R,
        input: I,
        _strict: bool,
    ) -> Result<Status, Failure> {
        let bytes = read_deciding(rt.alloc(), input).map_err(Failure::Input)?;
        let sheet = bytes.as_slice();
        rt.print(RecordLines { sheet }).map_err(Failure::Output)?;
        match Sheet::read(sheet).check() {
            Ok(()) => Ok(Status::Answered),
            Err(_) => Ok(Status::Refused),
        }
    }
}

fn main(rt: HostRuntime) -> ExitCode {
    run(&rt, &Records)
}
