//! What a replica knows to be committed at the ends of ticks, that it is never taken back, and what is printed of it.
//!
//! Who plays a run lends the replica to an `Observer` at the end of each tick. Nothing else of the run is read, so there need
//! be no journal. `observe` plays a journal so.
//!
//! Beside the replica a store executes what it knows to be committed: at the end of a tick only the entries that are new,
//! since of what it knows at two moments the shorter is the beginning of the longer (`stable`), whatever crashes are between
//! them. Where it knows less than was executed, as may be after a crash, the store begins anew.
#![tactic(auto)]

mod committing;
mod following;
mod known;
mod laws;
mod lines;
mod observer;
mod observing;

pub use committing::committed;
pub use laws::stable;
pub use observer::Observer;
pub use observing::observe;
