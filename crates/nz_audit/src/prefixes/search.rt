//! The longest of the accepted prefixes.

ghost use Rattle.std.specs.Prelude.{◌≤◌, ◌≡◌, ◌++◌, ◌∷◌, [], None, List, length, IfOk, OnOk, IsPermutation};
ghost use Rattle.std.specs.List.{AllByRecursion};
ghost use Rattle.nz_machine.specs.runs.History.{cut_after};
ghost use Rattle.nz_machine.specs.journals.Journals.{group_in, run_in};
ghost use Rattle.nz_machine.specs.runs.World.{World};
ghost use Rattle.nz_machine.specs.declared.journal.Journal.{Journal as JournalModel};
ghost use Rattle.nz_audit.specs.declared.accepted.answers.Traced.{Traced as TracedModel};
ghost use Rattle.nz_replica.specs.Models.{AreCores};
ghost use Rattle.nz_audit.specs.Prefixes.{prefix_for, all_traced, is_shorter, IsAccepted, IsWithin, IsFound};
ghost use Rattle.nz_audit.specs.Cores.{AreReplayed};

use crate::accepted::answers::{AcceptedAt, Counted, Source, Traced, longer};
use crate::accepted::tracing::trace;
use crate::prefixes::leaders::log_since;
use crate::prefixes::replays::{Replays, replay};
use nz_base::{Id, NoMemory};
use nz_log::HashedLog;
use nz_machine::Journal;
use nz_replica::Replica;
use std::alloc::Global;

/// What a search has found.
#[derive(Drop)]
pub struct Search {
    /// The replicas that were replayed for it.
    pub replays: Replays,
    /// The longest prefix so far.
    pub best: Option<Counted>,
}

/// How many entries the log has up to and with that of the request.
pub fn entries_up_to(log: &HashedLog, id: Id) -> u32
    ensures { result ≡ length (cut_after id log.now.entries) }
{
    // Places are below it.
    let _count = log.len();
    match log.place_of(id) {
        Some(place) => place + 1,
        None => 0,
    }
}

/// The one of the latest source.
fn latest(accepted: &[Traced]) -> Option<Traced> {
    accepted
        .iter()
        .copied()
        .max_by_key(|next| next.source.records)
}

/// Those of one replica together, in the order of their sources; those of the replica with the latest one first.
fn put_in_order(accepted: &mut Vec<Traced>)
    ensures { IsPermutation accepted.old.items accepted.new.items }
{
    let Some(last) = latest(accepted) else {
        return;
    };
    let first = last.source.replica;
    accepted.sort_unstable_by_key(|next| (next.source.replica ^ first, next.source.records));
}

/// How many entries the prefix has, where its replica is replayed up to the source.
fn count_replayed(
    alloc: Global,
    journal: &Journal,
    replays: &mut Replays,
    next: &Traced,
) -> Result<u32, NoMemory>
    requires within { IsWithin journal.now next.now }
    requires replays { AreReplayed journal.now replays.old }
    ensures replays { OnOk result (AreReplayed journal.now replays.new) }
    ensures entries { IfOk result (λ entries. entries ≡ length (prefix_for journal.now next.now)) }
{
    let at = replay(alloc, journal, replays.at.take(), next.source)?;
    let entries = entries_up_to(at.core.log(), next.accepted.id);
    replays.at = Some(at);
    Ok(entries)
}

/// The place of the first answer before which as many requests were sent as answers were accepted in all. Mostly all
/// of these are of the history, so the answers before this one have shorter prefixes.
fn first_late(answers: &[AcceptedAt]) -> usize
    ensures { result ≤ length answers.now }
{
    let count = answers.len();
    answers
        .iter()
        .position(|next| next.sent as usize >= count)
        .unwrap_or(count)
}

impl Search {
    /// Nothing is found yet.
    pub fn new() -> Search
        ensures replays { (journal : JournalModel) → AreReplayed journal result.replays }
        ensures best { result.best ≡ None }
    {
        Search {
            replays: Replays::new(),
            best: None,
        }
    }

    /// Whether the prefix of an answer is shorter than the longest so far, since so few requests were sent before.
    fn is_shorter(&self, sent: u32) -> bool
        ensures { result ≡ is_shorter self.now.best sent }
    {
        match &self.best {
            None => false,
            Some(best) => sent < best.entries,
        }
    }

    /// The source of the longest prefix so far.
    fn longest(&self) -> Option<Source> {
        match &self.best {
            Some(best) => Some(best.answer.source),
            None => None,
        }
    }

    /// How many entries the prefix has. The replica is replayed up to the source only where it does not lead the view
    /// of its reply to the end of the run.
    fn count(
        &mut self,
        alloc: Global,
        journal: &Journal,
        replicas: &[Replica],
        next: &Traced,
    ) -> Result<u32, NoMemory>
        requires within { IsWithin journal.now next.now }
        requires replicas { AreCores (group_in journal.now) (run_in journal.now) replicas.now }
        requires replays { AreReplayed journal.now self.old.replays }
        ensures replays { OnOk result (AreReplayed journal.now self.new.replays) }
        ensures best { OnOk result (self.new.best ≡ self.old.best) }
        ensures entries { IfOk result (λ entries. entries ≡ length (prefix_for journal.now next.now)) }
    {
        match log_since(alloc, journal, replicas, next)? {
            Some(log) => Ok(entries_up_to(log, next.accepted.id)),
            None => {
                let longest = self.longest();
                self.replays.keep_longest(longest, next.source);
                count_replayed(alloc, journal, &mut self.replays, next)
            }
        }
    }

    /// Counts the prefix, if it may be the longest.
    fn weigh(
        &mut self,
        alloc: Global,
        journal: &Journal,
        replicas: &[Replica],
        next: &Traced,
    ) -> Result<(), NoMemory>
        requires within { IsWithin journal.now next.now }
        requires replicas { AreCores (group_in journal.now) (run_in journal.now) replicas.now }
        requires replays { AreReplayed journal.now self.old.replays }
        ensures replays { OnOk result (AreReplayed journal.now self.new.replays) }
        ensures found { OnOk result ((done : List TracedModel) → IsFound journal.now done self.old → IsFound journal.now (done ++ next.now ∷ []) self.new) }
    {
        if self.is_shorter(next.accepted.sent) {
            return Ok(());
        }
        let entries = self.count(alloc, journal, replicas, next)?;
        let counted = Counted {
            answer: *next,
            entries,
        };
        self.best = Some(longer(self.best, counted));
        Ok(())
    }

    /// Counts the prefixes in this order.
    fn weigh_each(
        &mut self,
        alloc: Global,
        journal: &Journal,
        replicas: &[Replica],
        accepted: &[Traced],
    ) -> Result<(), NoMemory>
        requires within { AllByRecursion (IsWithin journal.now) accepted.now }
        requires replicas { AreCores (group_in journal.now) (run_in journal.now) replicas.now }
        requires replays { AreReplayed journal.now self.old.replays }
        ensures replays { OnOk result (AreReplayed journal.now self.new.replays) }
        ensures found { OnOk result ((done : List TracedModel) → IsFound journal.now done self.old → IsFound journal.now (done ++ accepted.now) self.new) }
    {
        for next in accepted {
            self.weigh(alloc, journal, replicas, next)?;
        }
        Ok(())
    }

    /// Counts the prefixes of these answers, which are traced for it.
    fn weigh_all(
        &mut self,
        alloc: Global,
        journal: &Journal,
        replicas: &[Replica],
        answers: &[AcceptedAt],
    ) -> Result<(), NoMemory>
        requires world { World (group_in journal.now) (run_in journal.now) }
        requires replicas { AreCores (group_in journal.now) (run_in journal.now) replicas.now }
        requires accepted { AllByRecursion (IsAccepted journal.now) answers.now }
        requires within { AllByRecursion (IsWithin journal.now) (all_traced journal.now answers.now) }
        requires replays { AreReplayed journal.now self.old.replays }
        ensures replays { OnOk result (AreReplayed journal.now self.new.replays) }
        ensures found { OnOk result ((done : List TracedModel) → IsFound journal.now done self.old
            → IsFound journal.now (done ++ all_traced journal.now answers.now) self.new) }
    {
        let mut accepted = trace(alloc, journal, answers)?;
        put_in_order(&mut accepted);
        self.weigh_each(alloc, journal, replicas, accepted.as_slice())
    }

    /// Counts those prefixes of these answers that may be the longest. The other answers are not traced.
    fn weigh_others(
        &mut self,
        alloc: Global,
        journal: &Journal,
        replicas: &[Replica],
        answers: Vec<AcceptedAt>,
    ) -> Result<(), NoMemory>
        requires world { World (group_in journal.now) (run_in journal.now) }
        requires replicas { AreCores (group_in journal.now) (run_in journal.now) replicas.now }
        requires accepted { AllByRecursion (IsAccepted journal.now) answers.items }
        requires within { AllByRecursion (IsWithin journal.now) (all_traced journal.now answers.items) }
        requires replays { AreReplayed journal.now self.old.replays }
        ensures { OnOk result ((done : List TracedModel) → IsFound journal.now done self.old
            → IsFound journal.now (done ++ all_traced journal.now answers.items) self.new) }
    {
        let mut answers = answers;
        answers.retain(|next| !self.is_shorter(next.sent));
        self.weigh_all(alloc, journal, replicas, answers.as_slice())
    }

    /// Counts the prefixes of the late answers first: mostly the others have to be shorter then.
    pub fn weigh_in_rounds(
        &mut self,
        alloc: Global,
        journal: &Journal,
        replicas: &[Replica],
        answers: Vec<AcceptedAt>,
    ) -> Result<(), NoMemory>
        requires world { World (group_in journal.now) (run_in journal.now) }
        requires replicas { AreCores (group_in journal.now) (run_in journal.now) replicas.now }
        requires accepted { AllByRecursion (IsAccepted journal.now) answers.items }
        requires within { AllByRecursion (IsWithin journal.now) (all_traced journal.now answers.items) }
        requires first { IsFound journal.now [] self.old }
        ensures { OnOk result (IsFound journal.now (all_traced journal.now answers.items) self.new) }
    {
        let mut others = answers;
        let place = first_late(others.as_slice());
        let (_, late) = others.as_slice().split_at(place);
        self.weigh_all(alloc, journal, replicas, late)?;
        others.truncate(place);
        self.weigh_others(alloc, journal, replicas, others)
    }
}
