//! A checker of printed runs: whether a text is one of a run with one history, or its first line that is not.
#![tactic(auto)]

mod checking;
mod entries;
mod events;
mod laws;
mod limit;
mod opens;
mod places;
mod verdict;

pub use checking::check;
pub use laws::{accepts, exact, texts_of_runs_are_read_back};
pub use limit::MAX_PRINTED;
pub use verdict::{Verdict, Why};
