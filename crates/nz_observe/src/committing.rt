//! What a replica knows to be committed at the end of a tick.

ghost use Rattle.std.specs.Prelude.{◌≡◌, ◌≤◌, length, take, IfOk};
ghost use Rattle.nz_machine.specs.journals.Journals.{group_in, run_in};
ghost use Rattle.nz_machine.specs.runs.Schedule.{Scheduled};
ghost use Rattle.nz_laws_commit.specs.Stable.{committed_of};
ghost use Rattle.nz_observe.specs.Ticks as ticks;

use crate::following::follow_to;
use nz_base::{EntryList, List, NoMemory, TryCopy};
use nz_log::HashedLog;
use nz_machine::Journal;
use nz_replica::Replica;
use std::alloc::Global;

/// Copies of so many entries of the log.
fn first_entries(alloc: Global, log: &HashedLog, count: u32) -> Result<EntryList, NoMemory>
    requires { count ≤ length log.now.entries }
    ensures { IfOk result (λ list. list ≡ take count log.now.entries) }
{
    let mut list = List::with_capacity(alloc, count)?;
    for place in 0..count {
        list.push(log.get(place).copy(alloc)?)?;
    }
    Ok(list)
}

fn committed_by(alloc: Global, replica: &Replica) -> Result<Option<EntryList>, NoMemory>
    ensures { IfOk result (λ entries. entries ≡ committed_of replica.now.model.state) }
{
    let state = replica.state();
    if !state.is_up() {
        return Ok(None);
    }
    state.show_invariant();
    Ok(Some(first_entries(alloc, state.log(), state.commit())?))
}

/// The entries that the replica with this number knows to be committed at the end of the tick. One that is down or
/// rejoins, or that the cluster does not have, knows of none.
pub fn committed(
    alloc: Global,
    journal: &Journal,
    number: u8,
    tick: u32,
) -> Result<Option<EntryList>, NoMemory>
    requires { Scheduled journal.now.scenario (run_in journal.now) }
    ensures { IfOk result (λ entries. entries ≡ ticks.committed (group_in journal.now) number tick (run_in journal.now)) }
{
    if number >= journal.scenario.cluster.n() {
        return Ok(None);
    }
    let mut replica = Replica::new(alloc, journal.scenario.cluster, number)?;
    follow_to(journal, &mut replica, number, 0, tick)?;
    committed_by(alloc, &replica)
}
