//! The replies to one request as a proxy tallies them, and what they decide.
#![tactic(auto)]

mod equal;
mod laws;
mod quorum;
mod tally;

pub use laws::{chosen_is_first_of_least_view, fast_where_there_is_one, slow_where_none_is_fast};
pub use tally::{Decision, Tally};
