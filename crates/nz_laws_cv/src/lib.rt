//! What replicas that rejoin know, and the views that they take part in: laws over every run of the machine,
//! by laws over an abstract machine, from premises on single states and messages.
//!
//! The *ground* is the premises of the laws. The *notions* are what the laws look at in a run. An *outcome* is all
//! that one rule does to a replica's state, as far as views and crash vectors go.
#![tactic(auto)]

mod laws;

pub use laws::{
    a_run_has_the_ground, begins_are_reported, knowledge, leaders_do_not_rejoin,
    rejoins_are_answered, views, views_follow,
};
