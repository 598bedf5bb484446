//! The scripted network: what of a scenario is due in each tick, and the journal of a run in the order of
//! the schedule.
//!
//! The words of this crate:
//!
//! - An *item* is an actor and an event that is due for it. The *agenda* of a tick is its items, and how
//!   many of them were taken.
//! - On one thread an item is taken alone; a *batch*, which a worker takes, is all that is due to one actor in
//!   a tick. Each is *open* until it is recorded or given up. A network is *marked* if one was given up, or if
//!   memory ran out. It gives no journal then.
//! - A run on one thread either *keeps* its records, so that it ends with a journal, or the records of a tick go
//!   from memory when the next tick begins. Contracts see all records either way, by a list that takes no
//!   memory (`Forgotten`). The choice is the argument `keeps` of `Alone::new`.
//! - The *ledger* counts the open batches of a run, in parts. A *share* is some of these parts, held by a
//!   worker.
//! - A *chronicle* is a list that the proofs alone know, all records of a run or all its takes; in memory it
//!   is one number, its length. A *take* is a batch that was taken. Batches are numbered from 1 as they are
//!   taken.
//! - A *run name* is a type that identifies a run, so that values under locks are known to belong to it.
//! - A tick is *light* if the workers that are awake do the rest of it sooner than others are woken.
#![tactic(auto)]

mod alone;
mod schedule;
mod threads;

pub use alone::Alone;
pub use alone::open_item::OpenItem;
pub use schedule::calendar::Calendar;
pub use threads::batch::Batch;
pub use threads::chronicle::Opened;
pub use threads::fabric::Fabric;
pub use threads::fabric_state::FabricState;
pub use threads::lane::Lane;
pub use threads::open_batches::Taken;
pub use threads::run_name::RunName;
pub use threads::share::Share;
