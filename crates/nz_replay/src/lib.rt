//! A replica's core, replayed from the records of a run.
#![tactic(auto)]

mod replaying;

pub use replaying::replay_one;
