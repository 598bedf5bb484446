//! Messages as frames, both ways.

ghost use Rattle.std.specs.Prelude.{◌≡◌, ◌<◌, ◌^◌, ◌⊎◌, Ok, Err, Some, IfOk, IfErr};
ghost use Rattle.nz_base.specs.Actor.{HasAddress, actor_at};
ghost use Rattle.nz_frame.specs.Address.{IsAddress};
ghost use Rattle.nz_frame.specs.Grammar.{AreBytes};
ghost use Rattle.nz_msg.specs.declared.envelope.Envelope.{Envelope as EnvelopeModel};
ghost use Rattle.nz_msg.specs.declared.refusal.DecodeRefusal.TheVariants as refusals;
ghost use Rattle.nz_msg.specs.Messages.{Fits, body_at, body_of};
ghost use Rattle.nz_msg.specs.Envelope.{encode_of, Spells, decode_of, IsRefusedAs};
ghost use Rattle.nz_msg.specs.Reading.{Gives, IsPlaced, refusal_at};

use super::bodies::message_of;
use super::envelope::Envelope;
use super::fault::Fault;
use super::message::Message;
use super::refusal::DecodeRefusal;
use super::rest::Rest;
use super::sizes::size_of;
use super::spelling::{kind, put_body};
use bytes::{Bytes, BytesMut};
use nz_base::{Actor, NoMemory};
use nz_frame::Frame;
use std::alloc::Global;

/// Small bodies are written one after the other into blocks of this many bytes.
const BLOCK: usize = 4096;

/// The greatest small body. A larger one gets memory of its own: a block is filled with zeros when it is taken, so the
/// bytes of a large body would be gone over twice.
const MOST_SHARED: usize = 1024;

/// A body of so many bytes or more is long: it is mostly a whole log.
pub const LONG_BODY: usize = 1 << 14;

// A small body, in the room. Bytes that the room still has are given up.
fn write_small(room: &mut BytesMut, message: &Message, size: usize) -> Result<Bytes, NoMemory>
    requires { Fits message.now }
    ensures { IfOk result (λ body. body ≡ body_of message.now) }
{
    room.clear();
    if room.capacity() < size {
        room.reserve(BLOCK)?;
    }
    put_body(room, message)?;
    let size = room.len();
    Ok(room.freeze_to(size)?)
}

// A large body, in memory of its own. What memory is left over is given back.
fn write_large(alloc: Global, message: &Message, size: usize) -> Result<Bytes, NoMemory>
    requires { Fits message.now }
    ensures { IfOk result (λ body. body ≡ body_of message.now) }
{
    let mut body = Vec::with_capacity(alloc, size)?;
    put_body(&mut body, message)?;
    body.shrink_to_fit();
    Ok(Bytes::from_vec(body)?)
}

/// The body of the message, which all its frames have in common. A small one is written in the room.
pub fn write_body(room: &mut BytesMut, message: &Message) -> Result<Bytes, NoMemory>
    requires { Fits message.now }
    ensures { IfOk result (λ body. body ≡ body_of message.now) }
{
    let size = size_of(message);
    if size <= MOST_SHARED {
        return write_small(room, message, size);
    }
    write_large(*room.allocator(), message, size)
}

/// The one frame of the message, whose body was written, from one actor to another. It takes no memory.
#[tactic(auto, unfolding(crate::specs::Envelope::encode_of))]
pub fn frame_of(from: Actor, to: Actor, message: &Message, body: Bytes) -> Frame
    requires valid { Fits message.now }
    requires body { body ≡ body_of message.now }
    requires from { HasAddress from }
    requires to { HasAddress to }
    ensures { result ≡ encode_of from to message.now }
{
    Frame::new(kind(message), from.address(), to.address(), body)
}

/// The one frame of the message from one actor to another. A small body is written in the room.
pub fn encode(
    room: &mut BytesMut,
    from: Actor,
    to: Actor,
    message: &Message,
) -> Result<Frame, NoMemory>
    requires valid { Fits message.now }
    requires from { HasAddress from }
    requires to { HasAddress to }
    ensures { IfOk result (λ frame. frame ≡ encode_of from to message.now) }
{
    let body = write_body(room, message)?;
    Ok(frame_of(from, to, message, body))
}

// The actor at an address that belongs to somebody.
fn actor_of(address: u16) -> Actor
    requires { IsAddress address }
    ensures { actor_at address ≡ Some result }
{
    match Actor::from_address(address) {
        Some(actor) => actor,
        None => unreachable!(),
    }
}

// The refusal of this many bytes for a fault in them.
fn placed(fault: Fault, size: usize) -> DecodeRefusal
    requires fault { IsPlaced size fault }
    requires size { size < 2 ^ 32 }
    ensures { result ≡ refusal_at size fault }
{
    match fault {
        Fault::NoMemory => DecodeRefusal::NoMemory,
        Fault::Bad(left) => DecodeRefusal::BadBody {
            place: (size - left) as u32,
        },
    }
}

// The message of a body. Those that read a long one at the same time would all count the owners of its commands in one
// place, so each has a copy of the bytes.
fn message_in(alloc: Global, kind: u8, body: &Bytes) -> Result<Message, Fault>
    ensures { Gives (λ m. m) result (body_at kind body.now) }
{
    if body.len() < LONG_BODY {
        return message_of(alloc, kind, Rest::new(body));
    }
    let own = Bytes::copy_from_slice(alloc, body.as_slice())?;
    message_of(alloc, kind, Rest::new(&own))
}

// What the frame says.
fn read(alloc: Global, frame: &Frame) -> Result<Envelope, DecodeRefusal>
    ensures decoded { IfOk result (λ envelope. decode_of frame.now ≡ Ok envelope) }
    ensures refused { IfErr result (λ refusal. IsRefusedAs frame.now refusal) }
    ensures bytes { AreBytes frame.now }
{
    let view = match frame.parts() {
        Ok(view) => view,
        Err(refusal) => return Err(DecodeRefusal::Frame(refusal)),
    };
    let from = actor_of(view.from);
    let to = actor_of(view.to);
    match message_in(alloc, view.kind, frame.body()) {
        Ok(message) => Ok(Envelope { from, to, message }),
        Err(fault) => Err(placed(fault, frame.len())),
    }
}

/// The message of a frame, with who sends it and who gets it. The frame's own tests come before those of
/// its body.
pub fn decode(alloc: Global, frame: &Frame) -> Result<Envelope, DecodeRefusal>
    // The bytes are the frame of what is decoded.
    ensures spelled { IfOk result (λ envelope. Spells envelope frame.now) }
    // Whatever the bytes are the frame of is decoded, where there is memory.
    ensures every_frame { (envelope : EnvelopeModel) → Spells envelope frame.now
        → (result ≡ Ok envelope) ⊎ (result ≡ Err refusals.NoMemory) }
    // The same by the reading of the bytes, which also has the place of each refusal.
    ensures decoded { IfOk result (λ envelope. decode_of frame.now ≡ Ok envelope) }
    ensures refused { IfErr result (λ refusal. IsRefusedAs frame.now refusal) }
{
    read(alloc, frame)
}
