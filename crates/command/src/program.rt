// A program, from its words to its status.
ghost use Rattle.std.specs.Prelude.{◌≡◌, IfSome};
ghost use Rattle.std.specs.Process.{exit_status};
ghost use Rattle.command.specs.Statuses.{IsStatus, answer_status, failed_status, status_of};

use crate::failure::Failure;
use crate::manual::{Help, Manual, Misused, Usage, Version};
use crate::request::{Misuse, Options, Request, after_name, request_of};
use std::fmt::Display;
use std::io::Read;
use std::process::ExitCode;
use std::rt::Runtime;
use std::{env, fs, io};

/// The status where something outside the program failed.
const FAILED: u8 = 2;

/// How a program ended where nothing outside it failed.
#[derive(Clone, Copy, PartialEq, Eq)]
pub enum Status {
    /// It answered.
    Answered,
    /// Its data was refused.
    Refused,
}

/// What answers some input.
pub trait Program {
    fn manual(&self) -> Manual<'_>;

    fn answer<R: Runtime + AllocGlobal, I: Read + Drop>(
        &self,
        rt: &R,
        input: I,
        strict: bool,
    ) -> Result<Status, Failure>;
}

impl From<Status> for ExitCode {
    ghost from_gives = { λ s e. exit_status e ≡ status_of s };

    fn from(status: Status) -> ExitCode {
        match status {
            Status::Answered => ExitCode::SUCCESS,
            Status::Refused => ExitCode::FAILURE,
        }
    }
}

/// Runs a program on what its words ask for: help, its version, or an answer to a file or to standard input.
pub fn run<R: Runtime + AllocGlobal, P: Program>(rt: &R, program: &P) -> ExitCode
    ensures { IsStatus (exit_status result) }
{
    let manual = program.manual();
    let words = match words(rt) {
        Ok(words) => words,
        Err(error) => return failed(rt, manual.name, None, Failure::Arguments(error)),
    };
    match request_of(after_name(words.as_slice()), manual.takes) {
        Ok(Request::Answer(options)) => answered(rt, program, options),
        other => said(rt, manual, other),
    }
}

/// Of a program that reads nothing, the status with which it ends at once where its words ask for help or its version,
/// or can't be taken.
pub fn ended_by_words<R: Runtime + AllocGlobal>(rt: &R, manual: Manual<'_>) -> Option<ExitCode>
    ensures { IfSome result (λ e. IsStatus (exit_status e)) }
{
    let words = match words(rt) {
        Ok(words) => words,
        Err(error) => return Some(failed(rt, manual.name, None, Failure::Arguments(error))),
    };
    match request_of(after_name(words.as_slice()), manual.takes) {
        Ok(Request::Answer(_)) => None,
        other => Some(said(rt, manual, other)),
    }
}

/// The status of an answer; a failure is said on standard error.
pub fn status_of<R: Runtime + AllocGlobal>(
    rt: &R,
    name: &str,
    answer: Result<Status, Failure>,
) -> ExitCode
    ensures { exit_status result ≡ answer_status answer }
{
    ended(rt, name, None, answer)
}

// The same, of an answer to a file.
fn ended<R: Runtime + AllocGlobal>(
    rt: &R,
    name: &str,
    file: Option<&str>,
    answer: Result<Status, Failure>,
) -> ExitCode
    ensures { exit_status result ≡ answer_status answer }
{
    match answer {
        Ok(status) => ExitCode::from(status),
        Err(failure) => failed(rt, name, file, failure),
    }
}

// What is said where no answer is asked for.
fn said<R: Runtime + AllocGlobal>(
    rt: &R,
    manual: Manual<'_>,
    request: Result<Request<'_>, Misuse<'_>>,
) -> ExitCode
    ensures { IsStatus (exit_status result) }
{
    match request {
        Ok(Request::Version) => printed(rt, manual.name, Version(manual)),
        Ok(_) => printed(rt, manual.name, Help(manual)),
        Err(misuse) => {
            let _ = eprint!(rt; "{}", Misused { manual, misuse });
            ExitCode::from(FAILED)
        }
    }
}

// The program's name and the words after it.
fn words<R: Runtime + AllocGlobal>(rt: &R) -> io::Result<Vec<String>> {
    let mut words = Vec::new(rt.alloc());
    for word in env::args(rt)? {
        words.push(word)?;
    }
    Ok(words)
}

fn printed<R: Runtime + AllocGlobal, D: Display + Drop>(rt: &R, name: &str, text: D) -> ExitCode
    ensures { IsStatus (exit_status result) }
{
    match rt.print(text) {
        Ok(()) => ExitCode::SUCCESS,
        Err(error) => failed(rt, name, None, Failure::Output(error)),
    }
}

fn answered<R: Runtime + AllocGlobal, P: Program>(
    rt: &R,
    program: &P,
    options: Options<'_>,
) -> ExitCode
    ensures { IsStatus (exit_status result) }
{
    let answer = match options.file {
        None => program.answer(rt, rt.reader(), options.strict),
        Some(path) => match fs::open(rt, path) {
            Ok(file) => program.answer(rt, file, options.strict),
            Err(error) => return unopened(rt, program.manual(), path, error),
        },
    };
    ended(rt, program.manual().name, options.file, answer)
}

// A file that can't be opened is named with the usage.
fn unopened<R: Runtime + AllocGlobal>(
    rt: &R,
    manual: Manual<'_>,
    path: &str,
    error: io::Error,
) -> ExitCode
    ensures { exit_status result ≡ failed_status }
{
    let status = failed(rt, manual.name, Some(path), Failure::Input(error));
    let _ = eprintln!(rt; "{}", Usage(manual));
    status
}

fn failed<R: Runtime + AllocGlobal>(
    rt: &R,
    name: &str,
    file: Option<&str>,
    failure: Failure,
) -> ExitCode
    ensures { exit_status result ≡ failed_status }
{
    failure.report(rt, name, file);
    ExitCode::from(FAILED)
}
