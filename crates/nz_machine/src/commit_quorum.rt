//! What the sync reports of the other replicas agree on.

ghost use Rattle.std.specs.Prelude.{◌≡◌, ◌<◌, ◌≤◌, ◌==◌, not, length, map, take, filter, slice_index};
ghost use Rattle.nz_base.specs.Cluster.{replica_count};
ghost use Rattle.nz_machine.specs.rules.Replicas.{numbers_below};
ghost use Rattle.nz_machine.specs.rules.LogMods.{commit_point};

use nz_base::{Cluster, MAX_REPLICAS};

/// Puts what the other replicas report first, in the order of their numbers. Gives how many they are.
fn gather(reports: &mut [u32; MAX_REPLICAS], me: u8, ack: &[u32]) -> usize
    requires { length ack.now ≤ MAX_REPLICAS }
    ensures within { result ≤ MAX_REPLICAS }
    ensures reports { take result reports.new ≡ map (slice_index ack.now) (filter (λ r. not (r == me)) (numbers_below (length ack.now))) }
{
    let mut count = 0;
    for replica in 0..ack.len() {
        if replica != me as usize {
            reports[count] = ack[replica];
            count += 1;
        }
    }
    count
}

/// The f-th greatest of what the others report.
pub fn reported(cluster: Cluster, me: u8, ack: &[u32]) -> u32
    requires member { me < replica_count cluster }
    requires acks { length ack.now ≡ replica_count cluster }
    ensures { result ≡ commit_point cluster me ack.now }
{
    let f = cluster.f();
    let mut reports = [0; MAX_REPLICAS];
    let count = gather(&mut reports, me, ack);
    let ordered = &mut reports[..count];
    ordered.sort_unstable();
    ordered[f as usize]
}
