//! A replica as it was after some records.

ghost use Rattle.std.specs.Prelude.{◌≡◌, ◌≤◌, ◌<◌, length, IfOk, IfSome, IsTrue, OnOk};
ghost use Rattle.nz_base.specs.Cluster.{replica_count};
ghost use Rattle.nz_machine.specs.journals.Journals.{group_in};
ghost use Rattle.nz_machine.specs.declared.journal.Journal.{Journal as JournalModel};
ghost use Rattle.nz_replica.specs.Models.{IsCore};
ghost use Rattle.nz_replay.specs.Runs.{run_up_to};
ghost use Rattle.nz_audit.specs.Cores.{IsReplayed, AreReplayed};

use crate::accepted::answers::Source;
use nz_base::NoMemory;
use nz_machine::Journal;
use nz_replay::replay_one;
use nz_replica::Replica;
use std::alloc::Global;

/// A replica as it was at a source.
#[derive(Drop)]
pub struct Replayed {
    pub core: Replica,
    pub source: Source,
}

impl Replayed {
    /// Whether a replay of the source can go on from here: it is of the same replica, and not past the source.
    fn leads_to(&self, source: Source) -> bool
        ensures replica { IsTrue result → self.now.source.replica ≡ source.replica }
        ensures records { IsTrue result → self.now.source.records ≤ source.records }
    {
        self.source.replica == source.replica && self.source.records <= source.records
    }

    /// Whether it is the replica at the source.
    fn is_at(&self, source: Source) -> bool {
        self.source.replica == source.replica && self.source.records == source.records
    }
}

/// The replicas that a search has at hand.
#[derive(Drop)]
pub struct Replays {
    /// The one that was replayed last.
    pub at: Option<Replayed>,
    /// The one of the longest prefix, if another was replayed since.
    pub kept: Option<Replayed>,
}

impl Replays {
    pub fn new() -> Replays
        ensures { (journal : JournalModel) → AreReplayed journal result }
    {
        Replays {
            at: None,
            kept: None,
        }
    }

    /// Whether the replica of the longest prefix was replayed last, and a replay of the next source does not go on from
    /// it.
    fn leaves(&self, longest: Option<Source>, next: Source) -> bool {
        match (&self.at, longest) {
            (Some(at), Some(longest)) => at.is_at(longest) && !at.leads_to(next),
            _ => false,
        }
    }

    /// Keeps the replica of the longest prefix, if there is one and the replay of the next source would drop its replica.
    pub fn keep_longest(&mut self, longest: Option<Source>, next: Source)
        ensures { (journal : JournalModel) → AreReplayed journal self.old → AreReplayed journal self.new }
    {
        if self.leaves(longest, next) {
            self.kept = self.at.take();
        }
    }

    /// Whether the replica of the longest prefix was kept.
    fn keeps(&self, longest: Source) -> bool {
        match &self.kept {
            Some(kept) => kept.is_at(longest),
            None => false,
        }
    }

    /// Takes what a replay of the source of the longest prefix goes on from.
    pub fn take_for(&mut self, longest: Source) -> Option<Replayed>
        ensures { (journal : JournalModel) → AreReplayed journal self.old → IfSome result (IsReplayed journal) }
    {
        if self.keeps(longest) {
            self.kept.take()
        } else {
            self.at.take()
        }
    }
}

/// The replica takes its records from the first count of records to the second.
fn replay_on(
    journal: &Journal,
    core: &mut Replica,
    number: u8,
    from: u32,
    to: u32,
) -> Result<(), NoMemory>
    requires order { from ≤ to }
    requires records { to ≤ length journal.now.records }
    requires core { IsCore (group_in journal.now) (run_up_to journal.now from) number core.old }
    ensures { OnOk result (IsCore (group_in journal.now) (run_up_to journal.now to) number core.new) }
{
    for place in from..to {
        replay_one(core, number, journal.records.get(place).as_record())?;
    }
    Ok(())
}

/// The replica before the first record.
fn first(alloc: Global, journal: &Journal, replica: u8) -> Result<Replayed, NoMemory>
    requires { replica < replica_count (group_in journal.now).f }
    ensures replica { IfOk result (λ at. at.source.replica ≡ replica) }
    ensures records { IfOk result (λ at. at.source.records ≡ 0) }
    ensures core { IfOk result (λ at. IsReplayed journal.now at) }
{
    Ok(Replayed {
        core: Replica::new(alloc, journal.scenario.cluster, replica)?,
        source: Source {
            replica,
            records: 0,
        },
    })
}

/// Where the replay of a source goes on from: what was replayed, if it is the same replica and not past the source.
fn start_of(
    alloc: Global,
    journal: &Journal,
    at: Option<Replayed>,
    source: Source,
) -> Result<Replayed, NoMemory>
    requires replica { source.replica < replica_count (group_in journal.now).f }
    requires at { IfSome at (IsReplayed journal.now) }
    ensures replica { IfOk result (λ start. start.source.replica ≡ source.replica) }
    ensures records { IfOk result (λ start. start.source.records ≤ source.records) }
    ensures core { IfOk result (λ start. IsReplayed journal.now start) }
{
    if let Some(at) = at {
        if at.leads_to(source) {
            return Ok(at);
        }
    }
    first(alloc, journal, source.replica)
}

/// The replica as it was at the source. A replay that has not passed it goes on.
pub fn replay(
    alloc: Global,
    journal: &Journal,
    at: Option<Replayed>,
    source: Source,
) -> Result<Replayed, NoMemory>
    requires replica { source.replica < replica_count (group_in journal.now).f }
    requires records { source.records ≤ length journal.now.records }
    requires at { IfSome at (IsReplayed journal.now) }
    ensures source { IfOk result (λ replayed. replayed.source ≡ source) }
    ensures core { IfOk result (λ replayed. IsReplayed journal.now replayed) }
{
    let Replayed {
        mut core,
        source: start,
    } = start_of(alloc, journal, at, source)?;
    replay_on(
        journal,
        &mut core,
        source.replica,
        start.records,
        source.records,
    )?;
    Ok(Replayed { core, source })
}
