//! How a replica that has forgotten all rejoins (Michael et al., DISC 2017), and how the others answer it.
#![tactic(auto)]

mod answers;
mod phases;
mod restarting;

pub use answers::{on_rejoin_ask, on_state_ask, on_vector_ask};
pub use phases::{on_rejoin_tell, on_state_tell, on_vector_tell};
pub use restarting::{rejoin_timer, restart};
