//! Streams of items.
ghost use Rattle.std.specs.Prelude.{◌<◌};

use crate::frames::refusal_line;
use crate::hex::hex_of;
use nz_base::{Blob, NoMemory};
use nz_edge::{CallList, MemSource};
use nz_lane::{Item, ItemRefusal, LaneReader, Stop};
use std::alloc::Global;

fn item_text(alloc: Global, item: &Item) -> Result<String, NoMemory> {
    match item {
        Item::Frame(frame) => Ok(format!(in alloc; "frame {}", frame.len())?),
        Item::Clock(reading) => Ok(format!(in alloc; "clock {reading}")?),
        Item::Alarm => Ok(String::from_str(alloc, "alarm")?),
        Item::Crash => Ok(String::from_str(alloc, "crash")?),
        Item::Restart(nonce) => Ok(format!(in alloc; "restart {nonce}")?),
        Item::Request(command) => {
            let bytes = hex_of(alloc, command.as_slice())?;
            Ok(format!(in alloc; "request {bytes}")?)
        }
    }
}

fn why_text(alloc: Global, why: ItemRefusal) -> Result<String, NoMemory> {
    match why {
        ItemRefusal::Kind => Ok(String::from_str(alloc, "bad kind")?),
        ItemRefusal::Frame(refusal) => {
            let refusal = refusal_line(alloc, refusal)?;
            Ok(format!(in alloc; "bad frame, {refusal},")?)
        }
        ItemRefusal::Clock => Ok(String::from_str(alloc, "bad clock")?),
        ItemRefusal::Command => Ok(String::from_str(alloc, "bad command")?),
        ItemRefusal::Cut => Ok(String::from_str(alloc, "cut")?),
    }
}

/// The items of a stream that comes in pieces of this size, and how it ends.
fn read_items(alloc: Global, bytes: &[u8], piece: usize) -> Result<String, NoMemory>
    requires { 0 < piece }
{
    let calls = CallList::new(alloc);
    let mut source = MemSource::new(Blob::from_slice(alloc, bytes)?, piece, calls);
    let mut reader = LaneReader::new(alloc);
    let mut text = String::new(alloc);
    for _ in 0..=bytes.len() {
        match reader.next(&mut source) {
            Ok(Some(item)) => {
                text.push_str(item_text(alloc, &item)?.as_str())?;
                text.push_str("; ")?;
            }
            Ok(None) => {
                text.push_str("end")?;
                return Ok(text);
            }
            Err(Stop::Refused { place, why }) => {
                let why = why_text(alloc, why)?;
                text.push_str(format!(in alloc; "{why} at {place}")?.as_str())?;
                return Ok(text);
            }
            Err(Stop::Fault | Stop::NoMemory) => return Err(NoMemory),
        }
    }
    Ok(text)
}

/// The items of a stream, if they are the same in whatever pieces it comes.
pub fn items_line(alloc: Global, bytes: &[u8]) -> Result<String, NoMemory> {
    let text = read_items(alloc, bytes, 4_096)?;
    for piece in [1, 2, 5] {
        if read_items(alloc, bytes, piece)?.as_str() != text.as_str() {
            return Ok(String::from_str(alloc, "differs")?);
        }
    }
    Ok(text)
}
