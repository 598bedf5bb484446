//! How a replica leaves its view for a later one, and how the leader of a view begins it.
#![tactic(auto)]

mod entering;
mod following;
mod leading;

pub use entering::{change_timer, on_alarm, on_view_ask, quiet_timer};
pub use following::on_start_view;
pub use leading::on_view_change;
