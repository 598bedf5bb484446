//! The log that a new leader makes of the logs that replicas report.
#![tactic(auto)]

mod laws;
mod new_log;
mod report;
mod reports;

pub use laws::{
    begins_with_synced_part, entries_come_from_logs, held_key_stays, merged_is_log, prefix_stays,
};
pub use new_log::merge;
pub use report::{Report, Reports};

#[cfg(test)]
mod tests;
