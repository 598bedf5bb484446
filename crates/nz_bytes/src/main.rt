//! Reads what was worked out elsewhere, a line each, and prints how our readers and writers answer: frames, streams of
//! items, commands and calls of a store in hexadecimal, and keys whose digests a log has.
#![tactic(auto)]

mod commands;
mod frames;
mod hex;
mod items;
mod keys;

use commands::{answer_of, spelled_again};
use frames::{frame_line, frame_of, is_short_at_each_end};
use hex::bytes_of;
use items::items_line;
use keys::digests_of;
use nz_base::NoMemory;
use nz_store::Store;
use std::alloc::Global;
use std::process::ExitCode;

/// Why the program stops.
#[derive(Debug, Drop)]
enum Stop {
    NoMemory,
    Input,
    Output,
}

impl From<NoMemory> for Stop {
    fn from(_: NoMemory) -> Stop {
        Stop::NoMemory
    }
}

/// What a line of this sort is answered: `frame` and `prefixes` are of a frame, `items` is of a stream of items,
/// `command` and `apply` of a command that is read and written again or that the one store executes, `digests` of keys.
fn answer(alloc: Global, store: &mut Store, sort: &str, rest: &str) -> Result<String, Stop> {
    if sort == "digests" {
        return Ok(digests_of(alloc, rest)?);
    }
    let bytes = bytes_of(alloc, rest)?;
    if sort == "frame" {
        Ok(frame_line(alloc, &frame_of(alloc, &bytes)?)?)
    } else if sort == "prefixes" {
        Ok(is_short_at_each_end(alloc, &bytes)?)
    } else if sort == "items" {
        Ok(items_line(alloc, &bytes)?)
    } else if sort == "command" {
        Ok(spelled_again(alloc, &bytes)?)
    } else if sort == "apply" {
        Ok(answer_of(alloc, store, &bytes)?)
    } else {
        Err(Stop::Input)
    }
}

fn answer_all(rt: &HostRuntime) -> Result<(), Stop> {
    let alloc: Global = rt.alloc();
    let mut store = Store::new(alloc);
    for line in rt.lines(alloc) {
        let line = line.map_err(|_| Stop::Input)?;
        let (sort, rest) = line.as_str().split_once(' ').ok_or(Stop::Input)?;
        let answer = answer(alloc, &mut store, sort, rest)?;
        rt.println(answer.as_str()).map_err(|_| Stop::Output)?;
    }
    Ok(())
}

fn main(rt: HostRuntime) -> ExitCode {
    match answer_all(&rt) {
        Ok(()) => ExitCode::SUCCESS,
        Err(_) => ExitCode::FAILURE,
    }
}
