//! What is observed of a replica.

ghost use Rattle.std.specs.Prelude.{◌≡◌, ◌<◌, IfOk};
ghost use Rattle.nz_base.specs.Cluster.{replica_count};
ghost use Rattle.nz_machine.specs.journals.Journals.{group_in, run_in};
ghost use Rattle.nz_machine.specs.runs.Schedule.{Scheduled};
ghost use Rattle.nz_machine.specs.runs.World.{World};
ghost use Rattle.nz_observe.specs.Observed.{observed};
ghost use Rattle.nz_observe.specs.Observing.{IsObserving};

use crate::following::follow_to;
use crate::observer::Observer;
use nz_base::{Blob, NoMemory};
use nz_machine::Journal;
use nz_replica::Replica;
use std::alloc::Global;

/// Plays the ticks for an observer of a replica of the cluster.
fn watch(alloc: Global, journal: &Journal, number: u8, key: &[u8]) -> Result<Observer, NoMemory>
    requires world { World (group_in journal.now) (run_in journal.now) }
    requires scheduled { Scheduled journal.now.scenario (run_in journal.now) }
    requires member { number < replica_count (group_in journal.now).f }
    ensures { IfOk result (IsObserving (group_in journal.now) number key.now journal.now.scenario.ticks (run_in journal.now)) }
{
    let mut replica = Replica::new(alloc, journal.scenario.cluster, number)?;
    let mut observer = Observer::new(alloc);
    let mut count = 0;
    for before in 0..journal.scenario.ticks {
        let tick = before + 1;
        count = follow_to(journal, &mut replica, number, count, tick)?;
        observer.look(alloc, Some(&replica), key, tick)?;
    }
    Ok(observer)
}

/// What is observed of the replica with this number: a line `peek TICK COUNT ANSWER` for each tick at whose end the
/// replica is up, and knows another count of committed entries than in the line before, or answers a read of the key
/// otherwise from them. Of one that the cluster does not have nothing is observed.
pub fn observe(alloc: Global, journal: &Journal, number: u8, key: &[u8]) -> Result<Blob, NoMemory>
    requires world { World (group_in journal.now) (run_in journal.now) }
    requires scheduled { Scheduled journal.now.scenario (run_in journal.now) }
    ensures { IfOk result (λ bytes. bytes ≡ observed (group_in journal.now) number key.now (run_in journal.now) journal.now.scenario.ticks) }
{
    if number >= journal.scenario.cluster.n() {
        return Ok(Observer::new(alloc).into_blob());
    }
    Ok(watch(alloc, journal, number, key)?.into_blob())
}
