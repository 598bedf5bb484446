//! Runs of a scenario, on one thread and on several.
//!
//! The *cast* of a run is the cores of all its actors, for one thread; the *stage* is the same cores in their
//! cells, for several. A *played* run is its journal and its replicas after the last record.
//!
//! On one thread a run is played tick by tick (`Playing`): between two ticks its replicas can be looked at, and
//! what the last tick showed can be noted. `run_alone` plays all ticks and gives the played run.
//!
//! With several workers, one of them plays alone, item by item, until a tick has much to do, and only then
//! are the others started. They stay over all further ticks. A worker takes a batch under the network's lock,
//! steps the actor under the actor's lock, and before it releases this lock it records the batch and takes
//! its next one. One that finds all items of a tick recorded begins the next tick. One that finds only open
//! batches of others sleeps. While all others sleep, a worker plays light ticks alone, and keeps the network's
//! lock.
//!
//! After the last tick one thread joins the workers' shares, so it knows whether a batch is still open. It
//! does what was left, and takes the replicas out of their cells.
#![tactic(auto)]

mod alone;
mod cast;
mod played;
mod playing;
mod shares;
mod stage;
mod threads;
mod workers;

pub use alone::run_alone;
pub use played::Played;
pub use playing::Playing;
pub use threads::run;
