//! What happens to an actor.

use crate::stage::Stop;
use crate::words::{actor_in, bytes_in, count_in, number_in};
use bytes::Bytes;
use nz_frame::Frame;
use nz_machine::{Event, Parcel, SharedParcel};
use std::alloc::Global;

/// The parcel between the actors of two addresses, with these bytes as its frame.
fn parcel_of(alloc: Global, from: &str, to: &str, bytes: &str) -> Result<SharedParcel, Stop> {
    let bytes = Bytes::from_vec(bytes_in(alloc, bytes)?)?;
    let parcel = Parcel {
        from: actor_in(from)?,
        to: actor_in(to)?,
        frame: Frame::from_bytes(bytes),
    };
    Ok(SharedParcel::new(alloc, parcel)?)
}

/// The event of these words: `tick CLOCK`, `hear FROM TO BYTES`, `cut FROM TO BYTES KEPT`, `alarm`, `crash` or
/// `restart NONCE`. FROM and TO are addresses, and BYTES are those of a frame in hexadecimal.
pub fn event_of(alloc: Global, words: &[&str]) -> Result<Event, Stop> {
    Ok(match *words {
        ["tick", clock] => Event::Tick(number_in(clock)?),
        ["hear", from, to, bytes] => Event::Deliver(parcel_of(alloc, from, to, bytes)?),
        ["cut", from, to, bytes, kept] => {
            Event::Cut(count_in(kept)?, parcel_of(alloc, from, to, bytes)?)
        }
        ["alarm"] => Event::Alarm,
        ["crash"] => Event::Crash,
        ["restart", nonce] => Event::Restart(number_in(nonce)?),
        _ => return Err(Stop::Input),
    })
}
