//! Plays the cases that a list names, and prints how each ends. What it has to print was made by another program.
#![tactic(auto)]

mod cases;
mod collisions;
mod ends;
mod faults;
mod forms;
mod kinds;
mod meeting;
mod report;
mod runs;
mod shared;

use kinds::play_line;
use report::Stop;
use std::alloc::Global;
use std::fs;
use std::process::ExitCode;
use std::rt::Files;
use std::sync::Wait;
use std::thread::Threads;

/// Plays the lines of the file `list`, but for empty ones and comments.
fn play_list<R: Files + Print + AllocGlobal + Threads + Wait + Sync>(rt: &R) -> Result<(), Stop> {
    let alloc: Global = rt.alloc();
    let list = fs::read_to_string(rt, "list").map_err(|_| Stop::Input)?;
    for line in list.lines() {
        if !line.is_empty() && !line.starts_with('#') {
            play_line(rt, alloc, line)?;
        }
    }
    Ok(())
}

fn main(rt: HostRuntime) -> ExitCode {
    match play_list(&rt) {
        Ok(()) => ExitCode::SUCCESS,
        Err(_) => ExitCode::FAILURE,
    }
}
