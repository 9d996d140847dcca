// Reads a quarter as plain text, and writes its packed sheet.
#![tactic(auto)]

use command::{Failure, Manual, Program, Status, Takes, run};
use quarter_text::{Message, read_quarter_from};
use std::io::{BufReader, Eprint, Read};
use std::process::ExitCode;
use std::rt::Runtime;
use words::nth_word;
use writing::sheet_vec;

struct Pack;

impl Program for Pack {
    fn manual(&self) -> Manual<'_> {
        Manual {
            name: "pack",
            summary: "a quarter as plain text to its packed sheet",
            takes: Takes {
                file: true,
                strict: false,
            },
            reads: "a quarter as plain text, line by line",
            writes: "its packed sheet; of a refused text the line, the word and what is wrong with it, to standard error",
            example: "pack examples/three-levels.quarter | quarter",
        }
    }

    fn answer<R: Runtime + AllocGlobal, I: Read + Drop>(
        &self,
        rt: &R,
        input: I,
        _strict: bool,
    ) -> Result<Status, Failure> {
        let mut input = BufReader::new(rt.alloc(), input).map_err(Failure::Input)?;
        let mut line = Vec::new(rt.alloc());
        match read_quarter_from(&mut input, &mut line).map_err(Failure::Input)? {
            Ok(quarter) => {
                let sheet = sheet_vec(rt.alloc(), &quarter)?;
                rt.write_all(sheet.as_slice()).map_err(Failure::Output)?;
                Ok(Status::Answered)
            }
            Err(fault) => {
                let word = nth_word(line.as_slice(), fault.word);
                let _ = eprintln!(rt; "{}", Message { fault, word });
                Ok(Status::Refused)
            }
        }
    }
}

fn main(rt: HostRuntime) -> ExitCode {
    run(&rt, &Pack)
}
