//! A node: an actor as a process of its own. It reads a stream of items, steps on each, and writes the frames that it
//! sends.
#![tactic(auto)]

mod events;
mod laws;
mod node;
mod writing;

pub use laws::what_is_written_is_a_lane;
pub use node::{NodeStop, serve, turn};
