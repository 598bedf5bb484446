//! Sets of replicas, the sizes of quorums, and how many members two of them share.
#![tactic(auto)]

mod laws;
mod replica_set;
#[cfg(test)]
mod tests;

pub use laws::{
    fast_meets_slow, fast_quorum_sizes, list_is_set, lists_of_others_share, lists_share,
    member_outside, more_than_half, rest_meets_slow_of_others, shared_members, sizes_of_all,
    slow_meets_slow, slow_meets_slow_of_others,
};
pub use replica_set::ReplicaSet;
