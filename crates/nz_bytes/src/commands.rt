//! Commands, and the store that executes them.

use crate::hex::hex_of;
use nz_base::NoMemory;
use nz_store::{Answer, Store, read_command, write_command};
use std::alloc::Global;

/// The bytes that are written of the command that was read, or `none`.
pub fn spelled_again(alloc: Global, bytes: &[u8]) -> Result<String, NoMemory> {
    match read_command(alloc, bytes).map_err(|_| NoMemory)? {
        Some(command) => {
            let mut bytes = Vec::new(alloc);
            write_command(&mut bytes, command.lend()).map_err(|_| NoMemory)?;
            hex_of(alloc, &bytes)
        }
        None => Ok(String::from_str(alloc, "none")?),
    }
}

/// What the store answers.
pub fn answer_of(alloc: Global, store: &mut Store, bytes: &[u8]) -> Result<String, NoMemory> {
    match store.apply_bytes(bytes).map_err(|_| NoMemory)? {
        Answer::Done => Ok(String::from_str(alloc, "done")?),
        Answer::Value(value) => {
            let value = hex_of(alloc, value.as_slice())?;
            Ok(format!(in alloc; "value {value}")?)
        }
        Answer::Absent => Ok(String::from_str(alloc, "absent")?),
        Answer::Differs => Ok(String::from_str(alloc, "differs")?),
    }
}
