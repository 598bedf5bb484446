//! Runs a scenario from standard input, and prints the run.
#![tactic(auto)]

use nz_edge::{OpenGate, StdSink, StdSource};
use nz_top::{Outcome, Status, Unkept, Words, help_lines, nezha};
use std::env;
use std::io::ErrorKind;
use std::process::ExitCode;

/// The words after the program's name, or None where memory was not found. Words that are not UTF-8 are dropped,
/// all of them: no words are no command, so the status is 1.
fn words_of(rt: &HostRuntime) -> Option<Words> {
    let mut args = Vec::new(rt.alloc());
    match env::args(rt) {
        Ok(all) => {
            for arg in all.skip(1) {
                args.push(arg).ok()?;
            }
        }
        Err(error) if error.kind() == ErrorKind::InvalidData => {}
        Err(_) => return None,
    }
    let mut words = Vec::new(rt.alloc());
    for arg in &args {
        words.push(arg.as_str()).ok()?;
    }
    Words::from_list(rt.alloc(), &words).ok()
}

/// Says on standard error what may help after a refusal. Where it cannot be said, the refusal still is.
fn advise(rt: &HostRuntime, status: Status) {
    let _ = match status {
        Status::Usage => rt.eprint(help_lines()),
        Status::BadScenario => { rt.eprintln("see tools/lint.py, or docs/FORMATS.md, Scenarios") }
        Status::Done
        | Status::ReadFault
        | Status::WriteFault
        | Status::NoMemory
        | Status::Rejected => Ok(()),
    };
}

fn main(rt: HostRuntime) -> ExitCode {
    let Some(words) = words_of(&rt) else {
        return ExitCode::from(Status::NoMemory.code());
    };
    let mut source = StdSource::new(rt.stdin());
    let mut out = StdSink::new(rt.stdout());
    let outcome: Outcome<Unkept> = nezha(
        &rt,
        rt.alloc(),
        &words,
        &mut source,
        &mut out,
        &OpenGate::new(),
    );
    let status = outcome.status;
    advise(&rt, status);
    ExitCode::from(status.code())
}
