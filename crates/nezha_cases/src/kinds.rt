//! What a line of the list asks for: a kind, the file of the cases, and the words of the calls.

use crate::cases::{Case, cases_of};
use crate::collisions::play_collisions;
use crate::ends::end_of;
use crate::faults::{Fault, play_faults};
use crate::forms::play_forms;
use crate::report::{Stop, print_ended, print_line};
use crate::runs::{play_histories, play_replicas};
use crate::shared::play_shared;
use nz_base::NoMemory;
use std::alloc::Global;
use std::fs;
use std::rt::Files;
use std::sync::Wait;
use std::thread::Threads;

/// The name of a case, and the words of a call.
fn title_of(alloc: Global, name: &str, words: &[&str]) -> Result<String, NoMemory> {
    let words = words.join(alloc, " ")?;
    Ok(format!(in alloc; "{name}, {words}")?)
}

/// One call.
fn play_each<R: Print + Threads + Wait + Sync>(
    rt: &R,
    alloc: Global,
    case: &Case,
    words: &[&str],
) -> Result<(), Stop> {
    let ended = end_of(rt, alloc, words, case.input.as_bytes())?;
    let title = title_of(alloc, case.name.as_str(), words)?;
    print_ended(rt, alloc, title.as_str(), &ended)
}

/// The lines of the trace that begin with these words.
fn play_lines<R: Print + Threads + Wait + Sync>(
    rt: &R,
    alloc: Global,
    case: &Case,
    words: &[&str],
) -> Result<(), Stop> {
    let ended = end_of(rt, alloc, &["trace"], case.input.as_bytes())?;
    let text = str::from_utf8(&ended.output).map_err(|_| Stop::Input)?;
    let title = title_of(alloc, case.name.as_str(), words)?;
    print_line(rt, title.as_str())?;
    let start = words.join(alloc, " ")?;
    for line in text.lines() {
        if line.starts_with(start.as_str()) {
            print_line(rt, line)?;
        }
    }
    Ok(())
}

fn play_case<R: Print + Threads + Wait + Sync>(
    rt: &R,
    alloc: Global,
    kind: &str,
    case: &Case,
    words: &[&str],
) -> Result<(), Stop> {
    match kind {
        "call" => play_each(rt, alloc, case, words),
        "lines" => play_lines(rt, alloc, case, words),
        "prefixes" => play_faults(rt, alloc, case, words, Fault::Prefix),
        "reads" => play_faults(rt, alloc, case, words, Fault::Read),
        "writes" => play_faults(rt, alloc, case, words, Fault::Write),
        "rooms" => play_faults(rt, alloc, case, words, Fault::Room),
        "shared" => match words.first() {
            Some(last) => play_shared(rt, alloc, case, last),
            None => Err(Stop::Input),
        },
        "replicas" => play_replicas(rt, alloc, case),
        "histories" => play_histories(rt, alloc, case),
        "collisions" => play_collisions(rt, alloc, case),
        "forms" => play_forms(rt, alloc, case),
        _ => Err(Stop::Input),
    }
}

fn words_of(alloc: Global, line: &str) -> Result<Vec<&str>, NoMemory> {
    let mut words = Vec::new(alloc);
    for word in line.split(' ') {
        words.push(word)?;
    }
    Ok(words)
}

/// Plays the cases of a line.
pub fn play_line<R: Files + Print + AllocGlobal + Threads + Wait + Sync>(
    rt: &R,
    alloc: Global,
    line: &str,
) -> Result<(), Stop> {
    let words = words_of(alloc, line)?;
    let [kind, file, words @ ..] = words.as_slice() else {
        return Err(Stop::Input);
    };
    let text = fs::read_to_string(rt, *file).map_err(|_| Stop::Input)?;
    for case in &cases_of(alloc, text.as_str())? {
        play_case(rt, alloc, kind, case, words)?;
    }
    Ok(())
}
