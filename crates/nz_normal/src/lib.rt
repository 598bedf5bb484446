//! What a replica in normal operation does with the requests that proxies hand on, and with ticks.
#![tactic(auto)]

mod releases;
mod requests;

pub use releases::tick;
pub use requests::on_timed;
