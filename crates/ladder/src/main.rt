// Answers calls over the ladders of bids, one from each line of a text, and prints what stands in the end.
#![tactic(auto)]

use bids::{DownBid, MOST_BIDS, UpBid};
use command::{Failure, Manual, Program, Status, Takes, run};
use ladder_calls::{AnswerLine, BidLadders, Message, TextFault, read_call};
use std::io;
use std::io::{BufReader, Eprint, ErrorKind, Read};
use std::process::ExitCode;
use std::rt::Runtime;
use words::{next_line, nth_word};

struct LadderProgram;

// Answers the calls line by line, up to a line that is no call.
fn answer_all<R: Runtime + AllocGlobal, I: Read + Drop>(
    rt: &R,
    input: I,
    ladders: &mut BidLadders<'_>,
    line: &mut Vec<u8>,
) -> Result<Option<TextFault>, Failure> {
    let mut input = BufReader::new(rt.alloc(), input).map_err(Failure::Input)?;
    for number in 0..usize::MAX {
        let more = next_line(&mut input, line).map_err(Failure::Input)?;
        match read_call(line.as_slice()) {
            Ok(Some(call)) => {
                let answer = ladders.call(call);
                rt.print(AnswerLine(answer)).map_err(Failure::Output)?;
            }
            Ok(None) => {}
            Err(fault) => return Ok(Some(fault.in_line(number))),
        }
        if !more {
            return Ok(None);
        }
    }
    Err(Failure::Input(io::Error::from(ErrorKind::FileTooLarge)))
}

impl Program for LadderProgram {
    fn manual(&self) -> Manual<'_> {
        Manual {
            name: "ladder",
            summary: "bids added to their ladders and withdrawn from them, one call a line",
            takes: Takes {
                file: true,
                strict: false,
            },
            reads: "calls as plain text, one a line: `add up 35.00 5000 17`, with the price in euros, the quantity in kW and the bid's number, or `withdraw up 17`; `down` likewise",
            writes: "a line for each call: what was added and its rank, what was withdrawn, or !, the number and the place of a refusal; then a line for each bid that stands, the first bid of each direction first; of a line that is no call the line and the word, to standard error",
            example: "ladder examples/avoided-activation.calls",
        }
    }

    fn answer<R: Runtime + AllocGlobal, I: Read + Drop>(
        &self,
        rt: &R,
        input: I,
        _strict: bool,
    ) -> Result<Status, Failure> {
        let mut up = [UpBid::default(); MOST_BIDS];
        let mut down = [DownBid::default(); MOST_BIDS];
        let mut ladders = BidLadders::new(&mut up, &mut down);
        let mut line = Vec::new(rt.alloc());
        match answer_all(rt, input, &mut ladders, &mut line)? {
            None => {
                rt.print(&ladders).map_err(Failure::Output)?;
                Ok(Status::Answered)
            }
            Some(fault) => {
                let word = nth_word(line.as_slice(), fault.word);
                let _ = eprintln!(rt; "{}", Message { fault, word });
                Ok(Status::Refused)
            }
        }
    }
}

fn main(rt: HostRuntime) -> ExitCode {
    run(&rt, &LadderProgram)
}
