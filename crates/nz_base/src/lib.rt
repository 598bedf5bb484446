//! The words that all layers share: who takes part, what a request is called, lists that take
//! memory only where they say so, and the data of a scenario.
#![tactic(auto)]

mod actor;
mod blob;
mod cluster;
mod entries;
mod key;
mod laws;
mod limits;
mod list;
mod memory;
mod scenario;

pub use actor::Actor;
pub use blob::Blob;
pub use cluster::Cluster;
pub use entries::first_place;
pub use key::{Entry, EntryList, Id, IdList, Key, KeyList};
pub use laws::{actors_are_in_line, addresses_are_exact, keys_are_in_line};
pub use limits::{
    MARGIN, MAX_CHANCES, MAX_CLIENT, MAX_CLIENTS, MAX_CLOCK, MAX_COMMAND, MAX_COUNT, MAX_DEADLINE,
    MAX_DELAY, MAX_ENTRIES, MAX_F, MAX_FAULTS, MAX_KEEP, MAX_KEYS, MAX_PROXIES, MAX_PROXY,
    MAX_REPLICA, MAX_REPLICAS, MAX_REQUEST_TICKS, MAX_REQUESTS, MAX_TEXT, MAX_TICKS, MAX_VALUE,
    MAX_VIEW, MAX_WINDOW, MAX_WORKERS, REJOIN_ASK_TICKS, RETRY_TICKS, UNITS_PER_TICK,
    VIEW_ASK_TICKS, VIEW_TIMEOUT_TICKS,
};
pub use list::List;
pub use memory::{NoMemory, TryCopy};
pub use scenario::{Fault, FaultList, Request, RequestList, Scenario, ScriptList, Skew, SkewList};
