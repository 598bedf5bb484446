//! What an actor sends.

use crate::stage::Stop;
use nz_machine::{Core, Event, Parcel, Sends};
use std::alloc::Global;

/// A line for a parcel: the addresses of its sender and receiver, and the bytes of its frame.
fn parcel_line(alloc: Global, parcel: &Parcel) -> Result<String, Stop> {
    if !parcel.from.has_address() || !parcel.to.has_address() {
        return Err(Stop::Input);
    }
    let (from, to) = (parcel.from.address(), parcel.to.address());
    let header = hex::encode(alloc, parcel.frame.header())?;
    let body = hex::encode(alloc, parcel.frame.body().as_slice())?;
    Ok(format!(in alloc; "{from} {to} {header}{body}\n")?)
}

fn lines_of(alloc: Global, sends: &Sends) -> Result<String, Stop> {
    let mut lines = String::new(alloc);
    for parcel in sends.as_slice() {
        lines.push_str(parcel_line(alloc, parcel.get())?.as_str())?;
    }
    Ok(lines)
}

/// What the actor sends at the event, a line for each parcel.
pub fn step<C: Core>(alloc: Global, core: &mut C, event: &Event) -> Result<String, Stop> {
    if !core.is_live() {
        return Err(Stop::NoMemory);
    }
    let sends = core.step(event)?;
    lines_of(alloc, &sends)
}
