//! The records of a run, and how many each actor has.

ghost use Rattle.std.specs.Prelude.{◌≡◌, ◌+◌, ◌<◌, ◌≤◌, ◌^◌, ◌∷◌, ◌++◌, [], ◌↔◌, length, reverse, replicate, IsTrue, MatchBool, IfOk, OnOk};
ghost use Rattle.nz_machine.specs.runs.Schedule.{group_of};
ghost use Rattle.nz_fabric.specs.schedule.Calendars.{number_in_all};
ghost use Rattle.nz_fabric.specs.threads.Records.{steps_of, with_step, AddsSome};
ghost use Rattle.nz_machine.specs.runs.Steps.{AreSteps};
ghost use Rattle.nz_fabric.specs.threads.Steps.{batch_records, node_after, sends_after, sends_from, with_steps};

use crate::schedule::course::number_in_all;
use crate::threads::chronicle::{Chronicle, RecordsOf, Seen, Unnamed};
use crate::threads::lane::Lane;
use crate::threads::run_name::RunName;
use nz_base::{Actor, List, NoMemory};
use nz_machine::{Event, Record, Recording, Sends};
use std::alloc::Global;
use std::marker::Model;

/// One number for each actor that there can be.
const ACTORS: usize = 768;

/// The records of a run in the order of recording, which are its chronicle. Each sends what the machine says after
/// those before it.
#[derive(Drop)]
pub struct Records<N: RunName> {
    records: Recording,
    /// How many records each actor has.
    counts: Vec<u32>,
    chronicle: Chronicle<Record, RecordsOf<N>>,
    seen: Seen<Record, RecordsOf<N>>,
}

impl<N: RunName> Model for Records<N> {
    ghost use Rattle.std.specs.Prelude.{◌≡◌, reverse};
    ghost use Rattle.nz_machine.specs.journals.Records.{Recorded};
    ghost use Rattle.nz_machine.specs.runs.Schedule.{group_of};
    ghost use Rattle.nz_fabric.specs.threads.Records.{AreCounts};
    ghost use Rattle.nz_machine.specs.runs.Steps.{AreSteps};

    ghost Value = { Recorded };

    ghost view = { λ f. f.records };

    ghost invariant = { λ f. (f.seen ≡ f.records.records) × AreCounts (reverse f.records.records) f.counts.items
        × AreSteps (group_of N.scenario) (reverse f.records.records) };
}

/// The place of the actor's count.
fn place_of(actor: Actor) -> usize
    ensures number { result ≡ number_in_all actor }
    ensures within { result < 768 }
{
    number_in_all(actor) as usize
}

impl<N: RunName> Records<N> {
    /// No record, and memory for the rows of this many clocks.
    pub fn new(
        alloc: Global,
        opened: Unnamed<Record>,
        clocks: usize,
    ) -> Result<Records<N>, NoMemory>
        requires { opened ≡ N.chronicles.records }
        ensures { IfOk result (λ records. records.records ≡ []) }
    {
        let counts = vec![in alloc; 0u32; ACTORS]?;
        let (chronicle, seen) = opened.named::<RecordsOf<N>>();
        Ok(Records {
            records: Recording::new(alloc, clocks)?,
            counts,
            chronicle,
            seen,
        })
    }

    pub fn len(&self) -> usize
        ensures { result ≡ length self.now.records }
    {
        self.records.len()
    }

    /// Makes room for this many records in all. Also `NoMemory` where these are 2^32 or more.
    pub fn reserve_to(&mut self, total: usize) -> Result<(), NoMemory>
        ensures records { self.new.records ≡ self.old.records }
        ensures room { self.old.room ≤ self.new.room }
        ensures all { OnOk result (total ≤ self.new.room) }
        ensures few { OnOk result (total < 2 ^ 32) }
    {
        if total > u32::MAX as usize {
            return Err(NoMemory);
        }
        self.records
            .reserve(total.saturating_sub(self.records.len()))?;
        Ok(())
    }

    /// The records of an actor so far.
    pub fn lane(&self, actor: Actor) -> Lane<N>
        ensures { result ≡ steps_of actor (reverse self.now.records) }
    {
        Lane {
            actor,
            count: self.counts[place_of(actor)],
            seen: self.seen.again(),
        }
    }

    /// Whether an actor has seen all of its records.
    pub fn is_seen_by(&self, lane: &Lane<N>) -> bool
        ensures { IsTrue result ↔ (lane.now ≡ steps_of lane.now.actor (reverse self.now.records)) }
    {
        let _known = self.seen.both(&lane.seen); // shows: both are prefixes of one chronicle
        lane.count == self.counts[place_of(lane.actor)]
    }

    /// The record is the last of all where its actor has seen all of its earlier ones. Where it has not, nothing changes.
    pub fn push(&mut self, lane: &mut Lane<N>, step: Record) -> bool
        requires few { length self.old.records + 1 < 2 ^ 32 }
        requires room { length self.old.records < self.old.room }
        requires own { step.actor ≡ lane.old.actor }
        requires sent { step.sends ≡ sends_after (group_of N.scenario) lane.old step.event }
        ensures room { self.new.room ≡ self.old.room }
        ensures pushed { MatchBool result
            ((self.new.records ≡ self.old.records ++ step ∷ [])
            × ((lane.old ≡ steps_of step.actor (reverse self.old.records)) × (lane.new ≡ with_step step lane.old)))
            ((self.new.records ≡ self.old.records) × (lane.new ≡ lane.old)) }
    {
        let place = place_of(step.actor);
        let count = self.counts[place];
        if lane.count != count {
            return false;
        }
        let more = count + 1;
        let number = self.records.len() as u64;
        if !self
            .chronicle
            .append(&mut self.seen, &lane.seen, number, &step)
        {
            return false;
        }
        self.records.push_reserved(step);
        self.counts[place] = more;
        lane.count = more;
        lane.seen = self.seen.again();
        true
    }

    /// Records of an actor in a tick, one for each event. Where one is refused, those before it are left and the rest
    /// is dropped.
    pub fn push_all(
        &mut self,
        lane: &mut Lane<N>,
        tick: u32,
        events: List<Event>,
        sends: Vec<Sends>,
    ) -> bool
        requires some { 0 < length events }
        requires few { length self.old.records + length events < 2 ^ 32 }
        requires room { length self.old.records + length events ≤ self.old.room }
        requires sent { sends.items ≡ sends_from (group_of N.scenario) (node_after (group_of N.scenario) lane.old) events }
        ensures room { self.new.room ≡ self.old.room }
        ensures pushed { let steps = batch_records tick lane.old.actor events sends.items in MatchBool result
            ((self.new.records ≡ self.old.records ++ steps)
            × ((lane.old ≡ steps_of lane.old.actor (reverse self.old.records)) × (lane.new ≡ with_steps steps lane.old)))
            (AddsSome steps self.old.records self.new.records × (lane.new.actor ≡ lane.old.actor)) }
    {
        let actor = lane.actor();
        for (event, sends) in events.into_vec().into_iter().zip(sends) {
            let step = Record {
                tick,
                actor,
                event,
                sends,
            };
            if !self.push(lane, step) {
                return false;
            }
        }
        true
    }

    /// The records in the order of recording.
    pub fn recording(&self) -> &Recording
        ensures { result.now ≡ self.now }
    {
        &self.records
    }

    /// The records in the order of recording, which are not copied.
    pub fn into_recording(self) -> Recording
        ensures records { result ≡ self }
        ensures steps { AreSteps (group_of N.scenario) (reverse result.records) }
    {
        let Records { records, .. } = self;
        records
    }
}
