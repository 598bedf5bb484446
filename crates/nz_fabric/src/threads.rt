//! The network of a run on several threads.

pub mod batch;
pub mod chronicle;
pub mod fabric;
pub mod fabric_state;
pub mod grouping;
pub mod lane;
pub mod open_batches;
pub mod pacing;
pub mod records;
pub mod run_name;
pub mod share;
