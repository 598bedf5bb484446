//! What is printed of a call.

use crate::ends::Ended;
use nz_base::NoMemory;
use sha1::Sha1;
use std::alloc::{AllocError, Global};

/// An output with more lines is printed as its length and its SHA-1.
const SHORT: usize = 40;

/// Why the program stops.
#[derive(Debug, Drop)]
pub enum Stop {
    NoMemory,
    /// A file is not there, or says nothing that can be done.
    Input,
    Output,
}

impl From<NoMemory> for Stop {
    fn from(_: NoMemory) -> Stop {
        Stop::NoMemory
    }
}

impl From<AllocError> for Stop {
    fn from(_: AllocError) -> Stop {
        Stop::NoMemory
    }
}

fn count_lines(output: &[u8]) -> usize {
    output.iter().filter(|byte| **byte == b'\n').count()
}

/// Whether the output is a few whole lines.
fn is_short(output: &[u8]) -> bool {
    (output.is_empty() || output.ends_with(b"\n")) && count_lines(output) <= SHORT
}

fn count_accepts(output: &[u8]) -> usize {
    output
        .split(|byte| *byte == b'\n')
        .filter(|line| line.starts_with(b"accept "))
        .count()
}

fn hex_of(alloc: Global, output: &[u8]) -> Result<String, NoMemory> {
    let mut hex = String::new(alloc);
    for byte in Sha1::digest(output) {
        hex.push_str(format!(in alloc; "{byte:02x}")?.as_str())?;
    }
    Ok(hex)
}

/// The line of a long output, or of one that was cut off.
fn summary_of(alloc: Global, output: &[u8]) -> Result<String, NoMemory> {
    let (bytes, lines) = (output.len(), count_lines(output));
    let accepts = count_accepts(output);
    let hex = hex_of(alloc, output)?;
    Ok(format!(in alloc; "{bytes} bytes, {lines} lines, {accepts} accepted, sha1 {hex}\n")?)
}

/// Prints a line of what it is.
pub fn print_line<R: Print>(rt: &R, line: &str) -> Result<(), Stop> {
    rt.println(line).map_err(|_| Stop::Output)
}

/// Prints how a call ended, after what it was.
pub fn print_ended<R: Print>(rt: &R, alloc: Global, what: &str, ended: &Ended) -> Result<(), Stop> {
    let code = ended.status.code();
    print_line(rt, format!(in alloc; "{what}: status {code}")?.as_str())?;
    let output = ended.output.as_slice();
    if is_short(output) {
        return rt.write_all(output).map_err(|_| Stop::Output);
    }
    let summary = summary_of(alloc, output)?;
    rt.write_all(summary.as_bytes()).map_err(|_| Stop::Output)
}
