//! What is supported in a view stays: each later view begins with it. Laws over an abstract machine, from
//! premises on its rules, its begins and its rejoins, which every run of the machine has.
#![tactic(auto)]

mod laws;

pub use laws::{
    a_run_follows_the_rules, accepted_prefixes_are_led, accepted_prefixes_have_views,
    committed_prefixes_are_stable, leader_executes_its_log, leader_log_grows,
    nothing_is_accepted_above, prefixes, quorums_support, rules_are_followed, supported_stays,
    supports_are_comparable, synced_parts_are_the_leaders, views_of_a_replica_rise,
    views_start_with_merged_logs,
};
