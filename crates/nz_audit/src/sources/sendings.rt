//! The parcels about wanted requests that stand for a source, each as it was sent first.

ghost use Rattle.std.specs.Prelude.{◌≡◌, [], IfOk, OnOk, Some, is_some, if◌then◌else◌};
ghost use Rattle.std.specs.Option.{option_flatten};
ghost use Rattle.nz_machine.specs.runs.History.{parcel_eq};
ghost use Rattle.nz_machine.specs.declared.event.Parcel.{Parcel as ParcelModel};
ghost use Rattle.nz_audit.specs.Sources.{parcel_key_of, kept_of, source_delivered};
ghost use Rattle.nz_audit.specs.Noting.{source_if_answer};

use crate::accepted::answers::Source;
use indexmap::IndexMap;
use nz_base::{Actor, NoMemory};
use nz_frame::Frame;
use nz_machine::{Event, Parcel, Reply};
use std::alloc::Global;

/// A parcel as a key. The body of its frame is shared.
#[derive(Debug, Drop, PartialEq, Eq, Hash)]
pub struct ParcelKey {
    pub from: Actor,
    pub to: Actor,
    pub frame: Frame,
}

impl ParcelKey {
    fn new(parcel: &Parcel) -> Result<ParcelKey, NoMemory>
        ensures { IfOk result (λ key. key ≡ parcel_key_of parcel.now) }
    {
        Ok(ParcelKey {
            from: parcel.from,
            to: parcel.to,
            frame: parcel.frame.clone()?,
        })
    }
}

/// What each parcel about a wanted request stands for, of those that were sent.
#[derive(Drop)]
pub struct Sendings {
    pub kept: IndexMap<ParcelKey, Option<Source>>,
}

impl Sendings {
    pub fn new(alloc: Global) -> Sendings
        ensures { result.kept.entries ≡ [] }
    {
        Sendings {
            kept: IndexMap::new(alloc),
        }
    }

    /// The source that the parcel stands for.
    pub fn source_of(&self, parcel: &Parcel) -> Result<Option<Source>, NoMemory>
        ensures { IfOk result (λ source. source ≡ option_flatten (kept_of self.now.kept.entries parcel.now)) }
    {
        let key = ParcelKey::new(parcel)?;
        match self.kept.get(&key) {
            Some(source) => Ok(*source),
            None => Ok(None),
        }
    }

    /// The source of what is delivered.
    pub fn source_of_event(&self, event: &Event) -> Result<Option<Source>, NoMemory>
        ensures { IfOk result (λ source. source ≡ source_delivered self.now.kept.entries event.now) }
    {
        match event {
            Event::Deliver(parcel) => self.source_of(parcel.get()),
            Event::Cut(..) | Event::Tick(_) | Event::Alarm | Event::Crash | Event::Restart(_) => {
                Ok(None)
            }
        }
    }

    /// Whether it was sent before.
    pub fn has(&self, parcel: &Parcel) -> Result<bool, NoMemory>
        ensures { IfOk result (λ has. has ≡ is_some (kept_of self.now.kept.entries parcel.now)) }
    {
        let key = ParcelKey::new(parcel)?;
        Ok(self.kept.contains_key(&key))
    }

    pub fn keep(&mut self, parcel: &Parcel, source: Option<Source>) -> Result<(), NoMemory>
        ensures { OnOk result ((p : ParcelModel)
            → kept_of self.new.kept.entries p ≡ (if parcel_eq parcel.now p then Some source else kept_of self.old.kept.entries p)) }
    {
        self.kept.insert(ParcelKey::new(parcel)?, source)?;
        Ok(())
    }
}

/// A parcel that is delivered to a proxy.
#[derive(Clone, Copy)]
pub struct Delivery<'a> {
    pub parcel: &'a Parcel,
    /// What the parcels stand for that were sent before.
    pub sendings: &'a Sendings,
    /// Whether the proxy sends nothing at this delivery.
    pub is_silent: bool,
}

impl Delivery<'_> {
    /// The source of the reply that it brings. Only a reply with an answer has one.
    pub fn source_of(&self, reply: &Reply) -> Result<Option<Source>, NoMemory>
        ensures { IfOk result (λ source. source
            ≡ source_if_answer (option_flatten (kept_of self.now.sendings.now.kept.entries self.now.parcel.now)) reply.now) }
    {
        match reply {
            Reply::Fast {
                answer: Some(_),
                ..
            } => self.sendings.source_of(self.parcel),
            _ => Ok(None),
        }
    }
}
