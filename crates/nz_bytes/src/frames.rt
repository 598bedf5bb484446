//! Frames, and the messages in them.
ghost use Rattle.std.specs.Prelude.{◌≤◌, length};

use crate::hex::hex_of;
use bytes::{Bytes, BytesMut};
use nz_base::NoMemory;
use nz_frame::{Frame, FrameRefusal};
use nz_msg::{DecodeRefusal, Envelope, Message, Path, decode, encode};
use std::alloc::Global;

pub fn frame_of(alloc: Global, bytes: &[u8]) -> Result<Frame, NoMemory> {
    let bytes = Bytes::copy_from_slice(alloc, bytes)?;
    Ok(Frame::from_bytes(bytes))
}

/// The kind, and two of the numbers of a message.
fn gist(message: &Message) -> (u64, u64, u64) {
    match message {
        Message::Request(b) => (1, b.num.into(), b.command.as_slice().len() as u64),
        Message::Timed(b) => (2, b.sent, b.deadline),
        Message::FastReply(b) => (3, b.view, b.delay.into()),
        Message::SlowReply(b) => (4, b.view, b.delay.into()),
        Message::Answer(b) => (5, b.num.into(), if b.path == Path::Fast { 1 } else { 2 }),
        Message::LogMod(b) => (6, b.view, b.keys.len().into()),
        Message::Fetch(b) => (7, b.view, b.ids.len().into()),
        Message::FetchReply(b) => (8, b.view, b.entries.len().into()),
        Message::SyncReport(b) => (9, b.view, b.synced.into()),
        Message::ViewAsk(b) => (10, b.view, 0),
        Message::ViewChange(b) => (11, b.view, b.last),
        Message::StartView(b) => (12, b.view, b.entries.len().into()),
        Message::VectorAsk(b) => (13, b.nonce, 0),
        Message::VectorTell(b) => (14, b.nonce, b.vector.size().into()),
        Message::RejoinAsk(b) => (15, b.nonce, b.vector.size().into()),
        Message::RejoinTell(b) => (16, b.nonce, b.view),
        Message::StateAsk(b) => (17, b.nonce, b.view),
        Message::StateTell(b) => (18, b.nonce, b.view),
    }
}

fn message_line(
    alloc: Global,
    message: &Message,
    from: u16,
    to: u16,
    frame: &Frame,
) -> Result<String, NoMemory> {
    let (kind, first, second) = gist(message);
    let header = hex_of(alloc, frame.header())?;
    let body = hex_of(alloc, frame.body().as_slice())?;
    Ok(format!(in alloc; "{kind} {from} {to} {first} {second} {header}{body}")?)
}

/// Why the bytes are no frame, and where.
pub fn refusal_line(alloc: Global, refusal: FrameRefusal) -> Result<String, NoMemory> {
    let (why, place) = match refusal {
        FrameRefusal::Short { place } => ("short", place),
        FrameRefusal::TooLong { place } => ("too long", place),
        FrameRefusal::Trailing { place } => ("trailing", place),
        FrameRefusal::BadVersion { place } => ("version", place),
        FrameRefusal::BadKind { place } => ("kind", place),
        FrameRefusal::BadActor { place } => ("actor", place),
    };
    Ok(format!(in alloc; "{why} at {place}")?)
}

/// A message as its kind, addresses, two numbers and the bytes that are written of it, or why the bytes are none.
pub fn frame_line(alloc: Global, frame: &Frame) -> Result<String, NoMemory> {
    match decode(alloc, frame) {
        Ok(envelope) => {
            let Envelope { from, to, message } = &envelope;
            let again = encode(&mut BytesMut::new(alloc), *from, *to, message)?;
            message_line(alloc, message, from.address(), to.address(), &again)
        }
        Err(DecodeRefusal::Frame(refusal)) => refusal_line(alloc, refusal),
        Err(DecodeRefusal::BadBody { place }) => Ok(format!(in alloc; "body at {place}")?),
        Err(DecodeRefusal::NoMemory) => Err(NoMemory),
    }
}

fn is_short_at(bytes: &[u8], end: usize) -> bool
    requires { end ≤ length bytes.now }
{
    match Frame::read(&bytes[..end]) {
        Err(FrameRefusal::Short { place }) => place as usize == end,
        _ => false,
    }
}

/// How many proper prefixes of the bytes are refused as short, each at its end.
pub fn is_short_at_each_end(alloc: Global, bytes: &[u8]) -> Result<String, NoMemory> {
    let count = (0..bytes.len())
        .filter(|end| is_short_at(bytes, *end))
        .count();
    Ok(format!(in alloc; "{count} short of {}", bytes.len())?)
}
