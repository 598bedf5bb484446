//! What a step sends, and how a message becomes a parcel.

ghost use Rattle.std.specs.Prelude.{◌≡◌, ◌∷◌, ◌++◌, [], IfOk, OnOk};
ghost use Rattle.nz_base.specs.Actor.{HasAddress};
ghost use Rattle.nz_msg.specs.Messages.{Fits, body_of};
ghost use Rattle.nz_machine.specs.rules.Step.{parcel};

use super::event::{Parcel, SharedParcel};
use super::sends::Sends;
use bytes::{Bytes, BytesMut};
use nz_base::{Actor, NoMemory};
use nz_msg::{Message, encode, frame_of, write_body};
use std::alloc::Global;
use std::marker::Model;
use std::mem;

/// What a step has sent so far. Contracts see the parcels. Small bodies are written one after the other into memory that
/// lasts from step to step.
#[derive(Drop)]
pub struct Outbox {
    alloc: Global,
    sends: Sends,
    room: BytesMut,
}

impl Model for Outbox {
    ghost use Rattle.std.specs.Prelude.{List};
    ghost use Rattle.nz_machine.specs.declared.event.Parcel.{Parcel as ParcelModel};

    ghost Value = { List ParcelModel };

    ghost view = { λ o. o.sends };
}

impl Outbox {
    /// Nothing is sent yet. It takes no memory.
    pub fn new(alloc: Global) -> Outbox
        ensures { result ≡ [] }
    {
        Outbox {
            alloc,
            sends: Sends::new(),
            room: BytesMut::new(alloc),
        }
    }

    /// Sends a frame.
    fn push(&mut self, parcel: Parcel) -> Result<(), NoMemory>
        ensures { OnOk result (self.new ≡ self.old ++ parcel ∷ []) }
    {
        self.sends
            .push(self.alloc, SharedParcel::new(self.alloc, parcel)?)
    }

    /// Sends a message.
    pub fn send(&mut self, from: Actor, to: Actor, message: &Message) -> Result<(), NoMemory>
        requires from { HasAddress from }
        requires to { HasAddress to }
        requires message { Fits message.now }
        ensures { OnOk result (self.new ≡ self.old ++ parcel from (to, message.now) ∷ []) }
    {
        let frame = encode(&mut self.room, from, to, message)?;
        self.push(Parcel { from, to, frame })
    }

    /// The body of a message that several actors get. Nothing is sent by it.
    pub fn write_body(&mut self, message: &Message) -> Result<Bytes, NoMemory>
        requires { Fits message.now }
        ensures body { IfOk result (λ body. body ≡ body_of message.now) }
        ensures same { self.new ≡ self.old }
    {
        write_body(&mut self.room, message)
    }

    /// Sends a message whose body was written. Its parcels have the body in common.
    pub fn send_written(
        &mut self,
        from: Actor,
        to: Actor,
        message: &Message,
        body: &Bytes,
    ) -> Result<(), NoMemory>
        requires from { HasAddress from }
        requires to { HasAddress to }
        requires message { Fits message.now }
        requires body { body.now ≡ body_of message.now }
        ensures { OnOk result (self.new ≡ self.old ++ parcel from (to, message.now) ∷ []) }
    {
        let frame = frame_of(from, to, message, body.clone()?);
        self.push(Parcel { from, to, frame })
    }

    /// Gives what was sent, in the order of sending. Nothing is sent from then on.
    pub fn take(&mut self) -> Sends
        ensures value { result ≡ self.old }
        ensures empty { self.new ≡ [] }
    {
        mem::replace(&mut self.sends, Sends::new())
    }
}
