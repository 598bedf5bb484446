//! How the logs of followers are made to agree with the leader's: log modifications, fetches and sync
//! reports.
#![tactic(auto)]

mod broadcast;
mod fetches;
mod log_mods;
mod sync_reports;

pub use broadcast::send_log_mods;
pub use fetches::{on_fetch, on_fetch_reply};
pub use log_mods::on_log_mod;
pub use sync_reports::on_sync_report;
