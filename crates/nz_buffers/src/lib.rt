//! The entries that a replica holds and has not put into its log.
#![tactic(auto)]

mod early;
mod early_rep;
mod late;
mod laws;
mod list_early;
mod places;

pub use early::{Early, Offer};
pub use early_rep::EarlyRep;
pub use late::Late;
pub use laws::due_entries_come_first;
pub use list_early::ListEarly;
