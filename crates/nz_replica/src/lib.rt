//! A replica: the rules of all its messages, its clock, alarms, crashes and restarts as one core.
#![tactic(auto)]

mod replica;

pub use replica::Replica;
