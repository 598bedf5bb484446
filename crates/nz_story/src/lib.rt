//! The story of a run: of each record what clients saw, what became of the replica, and what was sent.
//!
//! One pass over the records writes it. It replays all replicas, and compares what is shown of a replica, and
//! its keys, with those from before the record. It keeps count of the parcels that each fault line names, by
//! which the line strikes or spares the next.
#![tactic(auto)]

mod came;
mod deliveries;
mod fates;
mod fields;
mod heads;
mod known;
mod passes;
mod states;
mod story;
mod words;

pub use story::put_story;
