//! The history of a run that stayed in its first view: all accepted prefixes are beginnings of one log.

ghost use Rattle.std.specs.Prelude.{◌≡◌, [], List, length, IfOk, IfSome};
ghost use Rattle.std.specs.List.{list_all};
ghost use Rattle.nz_machine.specs.runs.History as histories;
ghost use Rattle.nz_machine.specs.journals.Journals.{group_in, run_in, executed_entries, history_in};
ghost use Rattle.nz_machine.specs.rules.State.{Group};
ghost use Rattle.nz_machine.specs.journals.EventNotes.{events_at};
ghost use Rattle.nz_machine.specs.runs.World.{World};
ghost use Rattle.nz_machine.specs.declared.event.Record.{Record};
ghost use Rattle.nz_machine.specs.declared.journal.Journal.{Journal};
ghost use Rattle.nz_replica.specs.Models.{AreCores};
ghost use Rattle.nz_audit.specs.Leading.{is_up_in_first_view, IsOnlyLog};
ghost use Rattle.nz_audit.specs.Prefixes.{longest_from, prefixes_in, AreAccepted};

use crate::accepted::answers::AcceptedAt;
use crate::accepted::listing::accepted_in;
use crate::execute::execute;
use crate::prefixes::leaders::log_leading;
use crate::prefixes::search::entries_up_to;
use nz_base::{Cluster, NoMemory};
use nz_log::HashedLog;
use nz_machine::{EventAt, History};
use nz_replica::Replica;
use std::alloc::Global;

/// Whether the replica is up in the first view.
fn is_up_in_first_view(replica: &Replica) -> bool
    ensures { result ≡ is_up_in_first_view replica.now.model.state }
{
    !replica.is_down() && !replica.is_rejoining() && replica.view() == 0
}

/// Whether all of them are.
fn are_up_in_first_view(replicas: &[Replica]) -> bool
    ensures { result ≡ list_all (λ replica. is_up_in_first_view replica.model.state) replicas.now }
{
    replicas.iter().all(is_up_in_first_view)
}

/// The log of the leader of view 0, if all replicas of the cluster are given and are up in that view. Then no other
/// view was ever led.
fn only_log(cluster: Cluster, replicas: &[Replica]) -> Option<&HashedLog>
    ensures { IfSome result (λ log. (g : Group) (J : List Record) → g.f ≡ cluster → AreCores g J replicas.now → IsOnlyLog g J log.now.entries) }
{
    if replicas.len() >= usize::from(cluster.n()) && are_up_in_first_view(replicas) {
        log_leading(replicas, cluster.leader(0), 0)
    } else {
        None
    }
}

/// How many entries the longest of the prefixes has, where this log has them all.
fn longest_in(log: &HashedLog, answers: &[AcceptedAt]) -> u32
    ensures { result ≡ length (longest_from [] (prefixes_in log.now.entries answers.now)) }
{
    let mut longest = 0;
    for next in answers {
        longest = longest.max(entries_up_to(log, next.id));
    }
    longest
}

/// The history of a run with these accepted answers, None where the run may have left its first view. These are its
/// replicas after its last record.
pub fn history_by_accepted(
    alloc: Global,
    cluster: Cluster,
    accepted: &[AcceptedAt],
    replicas: &[Replica],
) -> Result<Option<History>, NoMemory>
    ensures { IfOk result (λ o. IfSome o (λ history. (journal : Journal) → journal.scenario.cluster ≡ cluster
        → AreCores (group_in journal) (run_in journal) replicas.now → AreAccepted journal (run_in journal) accepted.now → history ≡ history_in journal)) }
{
    match only_log(cluster, replicas) {
        Some(log) => Ok(Some(execute(alloc, log, longest_in(log, accepted))?)),
        None => Ok(None),
    }
}

/// The history of a run that stayed in its first view, None where it may not have. It takes no journal: the events of
/// its clients are given, and so are the replicas as they are after the run's last record.
pub fn first_history(
    alloc: Global,
    cluster: Cluster,
    events: &[EventAt],
    replicas: &[Replica],
) -> Result<Option<History>, NoMemory>
    ensures { IfOk result (λ o. IfSome o (λ history. (g : Group) (J : List Record) → g.f ≡ cluster → World g J → events.now ≡ events_at g J
        → AreCores g J replicas.now → history ≡ executed_entries (histories.history g J))) }
{
    let accepted = accepted_in(alloc, events)?;
    history_by_accepted(alloc, cluster, accepted.as_slice(), replicas)
}
