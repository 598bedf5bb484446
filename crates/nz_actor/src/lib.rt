//! An actor under its lock, with the records of its steps.
//!
//! A *cell* is an actor under its lock. A *lane* is what an actor keeps of its own records: how many they
//! are, and a proof that the chronicle of the run has them. An actor is *ready* while its core has the state
//! that the records of its lane lead to.
#![tactic(auto)]

mod cell;
mod state;
mod steps;

pub use cell::ActorCell;
pub use state::ActorState;
