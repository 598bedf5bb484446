//! The data of a scenario.

use super::actor::Actor;
use super::blob::Blob;
use super::cluster::Cluster;
use super::list::List;
use super::memory::{NoMemory, TryCopy};
use std::alloc::Global;

/// How many clock units the clock of an actor is ahead, or behind where the number is below 0.
#[derive(Clone, Copy, Debug, PartialEq, Eq)]
pub struct Skew {
    pub actor: Actor,
    pub units: i64,
}

/// A request of a client's script. It is not sent before the client has counted `wait` ticks.
#[derive(Debug, Drop, PartialEq, Eq)]
pub struct Request {
    pub wait: u32,
    pub command: Blob,
}

/// What goes wrong in a run. `kind` is that of a message, 1 to 18, and `count` says which of the
/// parcels of that kind it is, from 1, that the one actor sends to the other. A parcel usually comes
/// in the tick after the one it was sent in.
#[derive(Clone, Copy, Debug, PartialEq, Eq)]
pub enum Fault {
    /// The parcel is lost.
    Drop {
        from: Actor,
        to: Actor,
        kind: u8,
        count: u32,
    },
    /// The parcel comes `by` ticks later.
    Hold {
        from: Actor,
        to: Actor,
        kind: u8,
        count: u32,
        by: u32,
    },
    /// The parcel comes a second time, `by` ticks later.
    Twice {
        from: Actor,
        to: Actor,
        kind: u8,
        count: u32,
        by: u32,
    },
    /// Of the parcel the first `keep` bytes come, and never all of them.
    Cut {
        from: Actor,
        to: Actor,
        kind: u8,
        count: u32,
        keep: u32,
    },
    /// What the one sends to the other in the ticks from `first` to `last` is lost. `None` is every actor.
    Block {
        from: Option<Actor>,
        to: Option<Actor>,
        first: u32,
        last: u32,
    },
    /// The actor is down from then on, and has forgotten all.
    Crash {
        actor: Actor,
        tick: u32,
    },
    /// The actor, if it is down, takes part again.
    Restart {
        actor: Actor,
        tick: u32,
    },
    /// The replica asks for the next view.
    Alarm {
        actor: Actor,
        tick: u32,
    },
}

pub type SkewList = List<Skew>;

pub type RequestList = List<Request>;

/// A list of requests for each client, in the order of the clients.
pub type ScriptList = List<RequestList>;

pub type FaultList = List<Fault>;

/// What a run is made from.
#[derive(Debug, Drop, PartialEq, Eq)]
pub struct Scenario {
    pub cluster: Cluster,
    pub proxies: u8,
    pub clients: u8,
    /// How many requests a client may have open at once, 1 to `MAX_WINDOW`.
    pub window: u8,
    pub ticks: u32,
    pub skews: SkewList,
    pub scripts: ScriptList,
    pub faults: FaultList,
}

impl TryCopy for Skew {
    fn copy(&self, _alloc: Global) -> Result<Skew, NoMemory> {
        Ok(*self)
    }
}

impl TryCopy for Fault {
    fn copy(&self, _alloc: Global) -> Result<Fault, NoMemory> {
        Ok(*self)
    }
}

impl TryCopy for Request {
    fn copy(&self, alloc: Global) -> Result<Request, NoMemory> {
        Ok(Request {
            wait: self.wait,
            command: self.command.copy(alloc)?,
        })
    }
}

impl TryCopy for Scenario {
    fn copy(&self, alloc: Global) -> Result<Scenario, NoMemory> {
        Ok(Scenario {
            cluster: self.cluster,
            proxies: self.proxies,
            clients: self.clients,
            window: self.window,
            ticks: self.ticks,
            skews: self.skews.copy(alloc)?,
            scripts: self.scripts.copy(alloc)?,
            faults: self.faults.copy(alloc)?,
        })
    }
}
