//! A replica's log, which knows its digest at each place and how much of it is synced.
//!
//! A log is in memory in *pages* of fixed size. An old entry is *displaced* if a newly synced one takes it
//! out of the log.
#![tactic(auto)]

mod calls;
mod entries;
mod index;
mod laws;
mod list_log;
mod log;
mod log_rep;
mod pages;
mod sums;

pub use calls::{LogAnswer, LogAnswerList, LogCall, LogCallList, run_calls};
pub use laws::{
    appended_is_log, digest_folds_one_more, last_entry_is_the_greatest, modified_is_log,
    no_entry_is_lost, place_is_the_only_one, synced_part_stays,
};
pub use list_log::ListLog;
pub use log::HashedLog;
pub use log_rep::{Allocating, LogRep};

/// The most entries that a log may have.
pub const MAX_ENTRIES: u32 = nz_base::MAX_ENTRIES;

/// The entries of a page of a log.
const PAGE: usize = 256;
