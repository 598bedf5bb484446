//! A client: a core that sends the requests of its script and accepts their answers.
#![tactic(auto)]

mod client;
mod laws;
mod state;

pub use client::{Client, are_sendable};
pub use laws::requests_not_due_change_nothing;
