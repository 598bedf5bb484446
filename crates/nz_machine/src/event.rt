//! Parcels, events and records.

ghost use Rattle.std.specs.Prelude.{◌≡◌, IfOk};

use super::sends::Sends;
use nz_base::{Actor, NoMemory, TryCopy};
use nz_frame::Frame;
use std::alloc::Global;
use std::marker::Model;
use std::sync::Arc;

/// A frame on its way.
#[derive(Drop)]
pub struct Parcel {
    pub from: Actor,
    pub to: Actor,
    pub frame: Frame,
}

/// A parcel that the step which sent it and each step to which it comes have in common. Contracts see the parcel. A copy
/// takes no memory.
#[derive(Drop)]
pub struct SharedParcel {
    parcel: Arc<Parcel>,
}

impl Model for SharedParcel {
    ghost use Rattle.nz_machine.specs.declared.event.Parcel.{Parcel as ParcelModel};

    ghost Value = { ParcelModel };

    ghost view = { λ s. s.parcel.value };
}

impl SharedParcel {
    pub fn new(alloc: Global, parcel: Parcel) -> Result<SharedParcel, NoMemory>
        ensures { IfOk result (λ shared. shared ≡ parcel) }
    {
        Ok(SharedParcel {
            parcel: Arc::new(alloc, parcel)?,
        })
    }

    pub fn get(&self) -> &Parcel
        ensures { result.now ≡ self.now }
    {
        &self.parcel
    }
}

impl TryCopy for SharedParcel {
    fn copy(&self, _alloc: Global) -> Result<SharedParcel, NoMemory> {
        Ok(SharedParcel {
            parcel: Arc::try_clone(&self.parcel)?,
        })
    }
}

/// What happens to an actor.
#[derive(Drop)]
pub enum Event {
    /// The parcel comes whole.
    Deliver(SharedParcel),
    /// This many bytes of the parcel come. The number is first, where it lies beside the tag and an event takes 16 bytes.
    Cut(u32, SharedParcel),
    /// The actor's clock reads this many clock units.
    Tick(u64),
    /// The actor learns that the leader is lost.
    Alarm,
    /// The actor forgets all, and is down.
    Crash,
    /// An actor that is down comes back, under a number that it has not had.
    Restart(u64),
}

/// A step of a run.
#[derive(Drop)]
pub struct Record {
    pub tick: u32,
    pub actor: Actor,
    pub event: Event,
    pub sends: Sends,
}

impl TryCopy for Event {
    fn copy(&self, alloc: Global) -> Result<Event, NoMemory> {
        match self {
            Event::Deliver(parcel) => Ok(Event::Deliver(parcel.copy(alloc)?)),
            Event::Cut(kept, parcel) => Ok(Event::Cut(*kept, parcel.copy(alloc)?)),
            Event::Tick(clock) => Ok(Event::Tick(*clock)),
            Event::Alarm => Ok(Event::Alarm),
            Event::Crash => Ok(Event::Crash),
            Event::Restart(nonce) => Ok(Event::Restart(*nonce)),
        }
    }
}
