//! The history of a journal.

ghost use Rattle.std.specs.Prelude.{◌≡◌, [], length, IfOk};
ghost use Rattle.nz_machine.specs.journals.Journals.{group_in, run_in, executed_entries, history_in};
ghost use Rattle.nz_machine.specs.journals.EventNotes.{events_at};
ghost use Rattle.nz_machine.specs.runs.World.{World};
ghost use Rattle.nz_replica.specs.Models.{AreCores};
ghost use Rattle.nz_audit.specs.Cores.{AreReplayed};
ghost use Rattle.nz_audit.specs.Prefixes.{prefix_for, IsWithin, AreAccepted, IsFound};

use crate::accepted::answers::{AcceptedAt, Counted};
use crate::accepted::listing::accepted_in;
use crate::execute::execute;
use crate::prefixes::first_view::history_by_accepted;
use crate::prefixes::leaders::log_since;
use crate::prefixes::replays::{Replays, replay};
use crate::prefixes::search::Search;
use nz_base::NoMemory;
use nz_machine::{EventAt, History, Journal};
use nz_replica::Replica;
use std::alloc::Global;

/// The prefix of the answer, with what one store that executes it answers. Its replica is replayed up to the source.
fn execute_replayed(
    alloc: Global,
    journal: &Journal,
    replays: &mut Replays,
    best: Counted,
) -> Result<History, NoMemory>
    requires within { IsWithin journal.now best.answer }
    requires counted { best.entries ≡ length (prefix_for journal.now best.answer) }
    requires replays { AreReplayed journal.now replays.old }
    ensures { IfOk result (λ history. history ≡ executed_entries (prefix_for journal.now best.answer)) }
{
    let at = replays.take_for(best.answer.source);
    let replayed = replay(alloc, journal, at, best.answer.source)?;
    execute(alloc, replayed.core.log(), best.entries)
}

/// The prefix of the answer, with what one store that executes it answers. Its replica is replayed only where it does
/// not lead the view of its reply to the end of the run. The replay goes on from one of these.
fn execute_prefix(
    alloc: Global,
    journal: &Journal,
    replicas: &[Replica],
    replays: &mut Replays,
    best: Counted,
) -> Result<History, NoMemory>
    requires within { IsWithin journal.now best.answer }
    requires counted { best.entries ≡ length (prefix_for journal.now best.answer) }
    requires replicas { AreCores (group_in journal.now) (run_in journal.now) replicas.now }
    requires replays { AreReplayed journal.now replays.old }
    ensures { IfOk result (λ history. history ≡ executed_entries (prefix_for journal.now best.answer)) }
{
    match log_since(alloc, journal, replicas, &best.answer)? {
        Some(log) => execute(alloc, log, best.entries),
        None => execute_replayed(alloc, journal, replays, best),
    }
}

/// The history, found by a new search among the prefixes of the accepted answers. Only those are looked for that may be
/// the longest.
fn longest_history(
    alloc: Global,
    journal: &Journal,
    replicas: &[Replica],
    accepted: Vec<AcceptedAt>,
    found: &mut Search,
) -> Result<History, NoMemory>
    requires world { World (group_in journal.now) (run_in journal.now) }
    requires replicas { AreCores (group_in journal.now) (run_in journal.now) replicas.now }
    requires accepted { AreAccepted journal.now (run_in journal.now) accepted.items }
    requires first { IsFound journal.now [] found.old }
    ensures { IfOk result (λ history. history ≡ history_in journal.now) }
{
    found.weigh_in_rounds(alloc, journal, replicas, accepted)?;
    match found.best {
        None => Ok(History::new(alloc)),
        Some(best) => execute_prefix(alloc, journal, replicas, &mut found.replays, best),
    }
}

/// The same, with a search of its own.
fn search_history(
    alloc: Global,
    journal: &Journal,
    replicas: &[Replica],
    accepted: Vec<AcceptedAt>,
) -> Result<History, NoMemory>
    requires world { World (group_in journal.now) (run_in journal.now) }
    requires replicas { AreCores (group_in journal.now) (run_in journal.now) replicas.now }
    requires accepted { AreAccepted journal.now (run_in journal.now) accepted.items }
    ensures { IfOk result (λ history. history ≡ history_in journal.now) }
{
    let mut found = Search::new();
    longest_history(alloc, journal, replicas, accepted, &mut found)
}

/// The history of the journal's run, with what the one store that executes it answers. It is the longest of
/// the prefixes that the clients' acceptances lead back to. The events of the clients are given, and are not read again.
///
/// The replicas are those of the run as they are after its last record, or the first of them, or none. Where all are up
/// in view 0, the log of its leader has all prefixes. Where they are not, a prefix is read off the log of the replica
/// that answered, if that leads the same view to the end. If it does not, or is not given, the replica is replayed from
/// the journal up to its answer, which takes about as long as the run took it.
pub fn history_of(
    alloc: Global,
    journal: &Journal,
    events: &[EventAt],
    replicas: &[Replica],
) -> Result<History, NoMemory>
    requires world { World (group_in journal.now) (run_in journal.now) }
    requires events { events.now ≡ events_at (group_in journal.now) (run_in journal.now) }
    requires replicas { AreCores (group_in journal.now) (run_in journal.now) replicas.now }
    ensures { IfOk result (λ history. history ≡ history_in journal.now) }
{
    let accepted = accepted_in(alloc, events)?;
    let cluster = journal.scenario.cluster;
    if let Some(history) = history_by_accepted(alloc, cluster, accepted.as_slice(), replicas)? {
        return Ok(history);
    }
    search_history(alloc, journal, replicas, accepted)
}
