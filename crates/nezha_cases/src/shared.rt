//! Runs that several workers share.

use crate::cases::Case;
use crate::ends::{Ended, Ends, end_of, end_through};
use crate::meeting::Meeting;
use crate::report::{Stop, print_line};
use nz_base::NoMemory;
use std::alloc::Global;
use std::sync::Wait;
use std::thread::Threads;

/// The lines of the bytes, sorted.
fn sorted(alloc: Global, bytes: &[u8]) -> Result<Vec<&[u8]>, NoMemory> {
    let mut lines = Vec::new(alloc);
    for line in bytes.split(|byte| *byte == b'\n') {
        lines.push(line)?;
    }
    lines.sort_unstable();
    Ok(lines)
}

/// Whether two calls ended with one status and the same lines, in any order.
fn ended_alike(alloc: Global, one: &Ended, other: &Ended) -> Result<bool, NoMemory> {
    let same = sorted(alloc, &one.output)? == sorted(alloc, &other.output)?;
    Ok(one.status == other.status && same)
}

/// Traces the case by so many workers, who meet in the first and in the last tick that they share, and compares it with the
/// trace by one worker.
fn play_shared_by<R: Print + Threads + Wait + Sync>(
    rt: &R,
    alloc: Global,
    case: &Case,
    words: &[&str],
    workers: usize,
    last: u64,
) -> Result<(), Stop> {
    let input = case.input.as_bytes();
    let alone = end_of(rt, alloc, &["trace"], input)?;
    let gate = Meeting::new(alloc, workers, last)?;
    let ended = end_through(rt, alloc, words, input, Ends::new(), &gate)?;
    let code = ended.status.code();
    let alike = if ended_alike(alloc, &alone, &ended)? {
        "as"
    } else {
        "not as"
    };
    let (batches, missed) = (gate.batches(), gate.missed());
    let name = case.name.as_str();
    let line = format!(in alloc;
        "{name}, trace by {workers} workers: status {code}, {alike} by one, {batches} batches, {missed} missed"
    )?;
    print_line(rt, line.as_str())
}

/// Traces the case by 2, 4 and 16 workers. The word is the first batch of the last tick.
pub fn play_shared<R: Print + Threads + Wait + Sync>(
    rt: &R,
    alloc: Global,
    case: &Case,
    last: &str,
) -> Result<(), Stop> {
    let last = last.parse().map_err(|_| Stop::Input)?;
    play_shared_by(rt, alloc, case, &["trace", "--workers=2"], 2, last)?;
    play_shared_by(rt, alloc, case, &["trace", "--workers=4"], 4, last)?;
    play_shared_by(rt, alloc, case, &["trace", "--workers", "16"], 16, last)
}
