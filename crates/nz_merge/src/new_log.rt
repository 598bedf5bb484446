//! The log of a new leader.

ghost use Rattle.std.specs.Prelude.{◌≡◌, IfOk};
ghost use Rattle.nz_merge.specs.Merged.{AreFit, merged};

use super::report::Reports;
use super::reports::{
    copy_entry, copy_synced_part, count_holders, greatest_last, keys_above, may_follow,
};
use nz_base::{Cluster, EntryList, NoMemory};
use std::alloc::Global;

/// The log of a new leader, of the logs that f + 1 replicas report.
#[tactic(auto, unfolding(crate::specs::Merged::merged))]
pub fn merge(alloc: Global, cluster: Cluster, reports: &Reports) -> Result<EntryList, NoMemory>
    requires { AreFit reports.now }
    ensures { IfOk result (λ log. log ≡ merged cluster reports.now) }
{
    let reports = reports.as_slice();
    let view = greatest_last(reports);
    let least = usize::from(cluster.f().div_ceil(2)) + 1;
    let mut log = copy_synced_part(alloc, reports, view)?;
    // Only keys above the synced part may follow.
    let keys = keys_above(alloc, reports, view, log.as_slice())?;
    for key in &keys {
        if count_holders(reports, view, *key) >= least && may_follow(log.as_slice(), *key) {
            log.push(copy_entry(alloc, reports, view, *key)?)?;
        }
    }
    Ok(log)
}
