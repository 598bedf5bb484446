//! Laws over all runs of the machine, each the contract of a function with nothing to do.
#![tactic(auto)]

mod laws;

pub use laws::{
    deployment_has_one_history, each_parcel_decodes, facts_stay, history_of_paired_prefixes,
    messages_are_snapshots, once_each, one_history, one_run_in_order, own_commands,
    premise_on_digests,
};
