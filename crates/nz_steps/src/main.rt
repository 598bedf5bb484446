//! Reads clusters and what happens to their actors, a line each, and prints what each actor sends and how it then is.
//! The lines and what comes of them were worked out apart from the program.
#![tactic(auto)]

mod events;
mod sends;
mod shows;
mod stage;
mod words;

use stage::{Stage, Stop};
use std::alloc::Global;
use std::process::ExitCode;

/// Each line gives none, one or several lines.
fn answer_all(rt: &HostRuntime) -> Result<(), Stop> {
    let alloc: Global = rt.alloc();
    let mut stage = Stage::new(alloc);
    for line in rt.lines(alloc) {
        let line = line.map_err(|_| Stop::Input)?;
        let answer = stage.answer(alloc, line.as_str())?;
        rt.write_all(answer.as_bytes()).map_err(|_| Stop::Output)?;
    }
    Ok(())
}

fn main(rt: HostRuntime) -> ExitCode {
    match answer_all(&rt) {
        Ok(()) => ExitCode::SUCCESS,
        Err(_) => ExitCode::FAILURE,
    }
}
