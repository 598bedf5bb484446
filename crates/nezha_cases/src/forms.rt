//! Texts, and bytes that are none.

use crate::cases::Case;
use crate::report::{Stop, print_line};
use nz_text::{TextFault, read_text};
use std::alloc::Global;

/// The first line that is not of the grammar, if there is one.
fn first_bad(alloc: Global, text: &[u8]) -> Result<Option<u32>, Stop> {
    if text.len() > 1_000_000 {
        return Err(Stop::Input);
    }
    match read_text(alloc, text) {
        Ok(_) => Ok(None),
        Err(TextFault::Bad { line }) => Ok(Some(line)),
        Err(TextFault::NoMemory) => Err(Stop::NoMemory),
    }
}

/// Whether the case is a text, or its first bad line.
pub fn play_forms<R: Print>(rt: &R, alloc: Global, case: &Case) -> Result<(), Stop> {
    let name = case.name.as_str();
    let line = match first_bad(alloc, case.input.as_bytes())? {
        None => format!(in alloc; "{name}: a text")?,
        Some(line) => format!(in alloc; "{name}: line {line}")?,
    };
    print_line(rt, line.as_str())
}
