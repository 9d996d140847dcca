// Prints the quarter of a packed sheet as plain text.
#![tactic(auto)]

use command::{Failure, Manual, Program, Status, Takes, run};
use quarter_text::quarter_text;
use sheet::{Sheet, read_deciding};
use std::io::Read;
use std::process::ExitCode;
use std::rt::Runtime;

struct Unpack;

impl Program for Unpack {
    fn manual(&self) -> Manual<'_> {
        Manual {
            name: "unpack",
            summary: "a packed sheet as plain text",
            takes: Takes {
                file: true,
                strict: false,
            },
            reads: "a packed sheet",
            writes: "its quarter as plain text, which pack reads; a refused sheet is named on standard error, by !, the number and the place of its refusal",
            example: "unpack examples/three-levels.sheet",
        }
    }

    fn answer<R: Runtime + AllocGlobal, I: Read + Drop>(
        &self,
        rt: &R,
        input: I,
        _strict: bool,
    ) -> Result<Status, Failure> {
        let bytes = read_deciding(rt.alloc(), input).map_err(Failure::Input)?;
        let sheet = Sheet::read(bytes.as_slice());
        if let Err(fault) = sheet.check() {
            let _ = eprintln!(rt; "{fault}");
            return Ok(Status::Refused);
        }
        let text = quarter_text(rt.alloc(), &sheet)?;
        rt.write_all(text.as_bytes()).map_err(Failure::Output)?;
        Ok(Status::Answered)
    }
}

fn main(rt: HostRuntime) -> ExitCode {
    run(&rt, &Unpack)
}
