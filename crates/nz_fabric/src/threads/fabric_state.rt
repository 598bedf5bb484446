//! The network of a run on several threads, under its lock.

ghost use Rattle.std.specs.Prelude.{◌≡◌, ◌⊎◌, ◌+◌, ◌<◌, ◌↔◌, length, reverse, true, false};
ghost use Rattle.std.specs.Prelude.{IsTrue, IfOk, IfSome, MatchBool, MatchOption, MatchResult};
ghost use Rattle.nz_machine.specs.journals.Journals.{run_in};
ghost use Rattle.nz_machine.specs.runs.Schedule.{group_of, IsPlayable, Scheduled};
ghost use Rattle.nz_fabric.specs.threads.Records.{steps_of, with_step};
ghost use Rattle.nz_machine.specs.runs.Steps.{AreSteps};
ghost use Rattle.nz_fabric.specs.threads.Steps.{batch_records, node_after, sends_after, sends_from, with_steps};
ghost use Rattle.nz_fabric.specs.alone.States.{records_of};
ghost use Rattle.nz_fabric.specs.threads.Shared.{HasNext, IsAccounted, IsGivenUp, IsLost, IsNextOf, IsNextTick, IsOver, MustWait, ClosesBatch, IsWhole};
ghost use Rattle.nz_fabric.specs.threads.Shared.{next_item, next_record, start_shared, with_given_up, with_next, with_opened, with_record, with_stop};
ghost use Rattle.nz_base.specs.declared.limits.TheConstants.{MAX_WORKERS};

use crate::schedule::agenda::Agenda;
use crate::schedule::due::clocks_of;
use crate::schedule::posting::post_all;
use crate::schedule::ticks::Ticks;
use crate::threads::batch::Batch;
use crate::threads::chronicle::Opened;
use crate::threads::grouping::group;
use crate::threads::lane::Lane;
use crate::threads::open_batches::{OpenBatches, Taken};
use crate::threads::pacing::Pacing;
use crate::threads::records::Records;
use crate::threads::run_name::RunName;
use crate::threads::share::Share;
use nz_base::{Actor, NoMemory, Scenario, TryCopy};
use nz_machine::{Item, Journal, Record, Sends};
use std::alloc::Global;
use std::marker::Model;
use std::sync::ledger::{Blank, Book};

/// The network of a run on several threads: what is due, the batches that are open, and the journal, in which the
/// records of a tick are in any order.
#[derive(Drop)]
pub struct FabricState<N: RunName> {
    ticks: Ticks,
    /// What is due in the tick.
    agenda: Agenda,
    records: Records<N>,
    /// How many records there were before this tick.
    before: usize,
    batches: OpenBatches<N>,
    book: Book<N>,
    pacing: Pacing,
}

impl<N: RunName> Model for FabricState<N> {
    ghost use Rattle.std.specs.Prelude.{◌≡◌};
    ghost use Rattle.nz_fabric.specs.threads.Shared.{Shared, IsBooked, booking_of, shared_of};
    ghost use Rattle.nz_base.specs.declared.limits.TheConstants.{MAX_WORKERS};

    ghost Value = { Shared };

    ghost view = { λ f. shared_of (booking_of f.ticks f.before f.records f.agenda f.batches f.book.total) };

    ghost invariant = { λ f. (N.parts ≡ MAX_WORKERS)
        × IsBooked N.scenario (booking_of f.ticks f.before f.records f.agenda f.batches f.book.total) };
}

impl<N: RunName> FabricState<N> {
    /// A run that has not begun, and the whole share. So many workers begin it, and none of them waits.
    pub fn new(
        alloc: Global,
        blank: Blank,
        opened: Opened,
        scenario: Scenario,
        workers: u8,
    ) -> Result<(FabricState<N>, Share<N>), NoMemory>
        requires name { (blank.name ≡ N.name) × (blank.parts ≡ N.parts) × (blank.parts ≡ MAX_WORKERS) }
        requires chronicles { opened ≡ N.chronicles }
        requires scenario { scenario ≡ N.scenario }
        requires playable { IsPlayable scenario }
        ensures { IfOk result (λ r. (r.0 ≡ start_shared scenario) × IsWhole r.1) }
    {
        let Opened { records, takes } = opened;
        // Each clock has a record, so none of these places is left.
        let records = Records::new(alloc, records, clocks_of(&scenario))?;
        let (book, held) = blank.open::<N>();
        let state = FabricState {
            ticks: Ticks::new(alloc, scenario)?,
            agenda: Agenda::new(Vec::new(alloc)),
            records,
            before: 0,
            batches: OpenBatches::new(alloc, takes),
            book,
            pacing: Pacing::new(workers),
        };
        Ok((state, Share { held }))
    }

    /// Does nothing.
    pub fn show_invariant(&self)
        ensures { IsAccounted N.scenario self.now }
    {
        let _known = &self.ticks; // shows: the invariant of this type
    }

    /// The next batch of the tick. The tick's places in the journal are reserved here. Also `NoMemory` where another
    /// network of this name took one. Events that were moved out before memory was refused are lost, and no further batch
    /// is given then.
    pub fn take(&mut self, share: &mut Share<N>) -> Result<Option<Taken<N>>, NoMemory>
        ensures { MatchResult result
            (λ batch.
            MatchOption batch
            ((self.new ≡ self.old) × (share.new ≡ share.old) × ((self.old.run.marked ≡ true) ⊎ (self.old.run.next ≡ length self.old.run.items)))
            (λ batch. (self.new ≡ with_opened batch self.old) × (share.new ≡ record share.old { amount = share.old.amount + 1 }) × IsNextOf self.old batch))
            (λ _. (IsLost self.old self.new) × (share.new ≡ share.old)) }
    {
        if self.ticks.marked || self.agenda.is_done() {
            return Ok(None);
        }
        self.records
            .reserve_to(self.before.saturating_add(self.agenda.len()))?;
        let (actor, events) = self.agenda.take_run(self.ticks.alloc)?;
        let Ok(batch) = self.batches.take(actor, events) else {
            self.ticks.marked = true;
            return Err(NoMemory);
        };
        self.book.add(&mut share.held, 1);
        Ok(Some(batch))
    }

    /// The records of the batch are last in the journal, and the last of its actor. Where the actor has not seen all of
    /// its earlier records, or no open batch has its number, it is given up.
    pub fn record(
        &mut self,
        batch: Taken<N>,
        sends: Vec<Sends>,
        share: &mut Share<N>,
        lane: &mut Lane<N>,
    ) -> bool
        requires open { 0 < share.old.amount }
        requires own { batch.actor ≡ lane.old.actor }
        requires sent { sends.items ≡ sends_from (group_of N.scenario) (node_after (group_of N.scenario) lane.old) batch.events }
        ensures recorded { MatchBool result (self.new ≡ with_record batch.number sends.items self.old) (IsGivenUp batch.number self.old self.new) }
        ensures lane { MatchBool result
            ((lane.old ≡ steps_of batch.actor (records_of self.old.run))
            × (lane.new ≡ with_steps (batch_records self.old.run.tick batch.actor batch.events sends.items) lane.old))
            (lane.new.actor ≡ lane.old.actor) }
        ensures share { ClosesBatch share.old share.new }
    {
        self.book.audit(&mut share.held);
        let is_open = self.batches.close(&batch);
        self.book.sub(&mut share.held, 1);
        let Batch {
            number: _,
            actor: _,
            events,
        } = batch.into_batch();
        if !is_open {
            self.ticks.marked = true;
            return false;
        }
        if !self.records.push_all(lane, self.ticks.tick, events, sends) {
            self.ticks.marked = true;
            return false;
        }
        true
    }

    /// Nothing is recorded, and no further batch is given.
    pub fn give_up(&mut self, batch: Taken<N>, share: &mut Share<N>)
        requires { 0 < share.old.amount }
        ensures given_up { self.new ≡ with_given_up batch.number self.old }
        ensures share { ClosesBatch share.old share.new }
    {
        self.book.audit(&mut share.held);
        self.batches.close(&batch);
        batch.into_batch().into_number();
        self.ticks.marked = true;
        self.book.sub(&mut share.held, 1);
    }

    /// The next item of the tick, which was not taken. None where all were taken, and where no further one is given.
    pub fn next_item(&self) -> Option<&Item>
        ensures { MatchOption result ((self.now.run.marked ≡ true) ⊎ (self.now.run.next ≡ length self.now.run.items))
            (λ item. HasNext self.now × (item.now ≡ next_item self.now)) }
    {
        if self.ticks.marked || self.agenda.is_done() {
            return None;
        }
        Some(self.agenda.peek())
    }

    /// The next item is taken, and is at once the last record. `NoMemory` also where its actor has not seen all of its
    /// earlier records.
    fn push_next(&mut self, sends: Sends, lane: &mut Lane<N>) -> Result<(), NoMemory>
        requires next { HasNext self.old }
        requires own { (next_item self.old).actor ≡ lane.old.actor }
        requires sent { sends ≡ sends_after (group_of N.scenario) lane.old (next_item self.old).event }
        ensures { MatchResult result
            (λ _. (self.new ≡ with_next sends self.old)
            × ((lane.old ≡ steps_of lane.old.actor (records_of self.old.run)) × (lane.new ≡ with_step (next_record sends self.old) lane.old)))
            (λ _. (self.new ≡ self.old) × (lane.new ≡ lane.old)) }
    {
        self.pacing.add_step(&sends);
        let event = self.agenda.peek().event.copy(self.ticks.alloc)?;
        self.records
            .reserve_to(self.before + self.agenda.taken_count() + 1)?;
        let step = Record {
            tick: self.ticks.tick,
            actor: lane.actor(),
            event,
            sends,
        };
        if !self.records.push(lane, step) {
            return Err(NoMemory);
        }
        self.agenda.take();
        Ok(())
    }

    /// The next item is taken, and is at once the last record. Where there is no memory, or its actor has not seen all of
    /// its earlier records, no further item is given.
    pub fn record_next(&mut self, sends: Sends, lane: &mut Lane<N>) -> bool
        requires next { HasNext self.old }
        requires own { (next_item self.old).actor ≡ lane.old.actor }
        requires sent { sends ≡ sends_after (group_of N.scenario) lane.old (next_item self.old).event }
        ensures recorded { MatchBool result (self.new ≡ with_next sends self.old) (self.new ≡ with_stop self.old) }
        ensures lane { MatchBool result
            ((lane.old ≡ steps_of lane.old.actor (records_of self.old.run)) × (lane.new ≡ with_step (next_record sends self.old) lane.old))
            (lane.new ≡ lane.old) }
    {
        if self.push_next(sends, lane).is_ok() {
            return true;
        }
        self.stop();
        false
    }

    /// No further item is given.
    pub fn stop(&mut self)
        ensures { self.new ≡ with_stop self.old }
    {
        self.ticks.marked = true;
    }

    /// Whether a batch was given up or lost when it was taken, the run was stopped, or a tick could not begin.
    pub fn is_marked(&self) -> bool
        ensures { result ≡ self.now.run.marked }
    {
        self.ticks.marked
    }

    /// Whether all that is due in the tick was recorded.
    pub fn is_over(&self) -> bool
        ensures { IsTrue result ↔ IsOver self.now }
    {
        !self.ticks.marked && self.batches.is_empty() && self.agenda.is_done()
    }

    /// Whether the rest of the tick is done sooner by those that are awake than others are woken.
    pub fn is_light(&self) -> bool {
        self.pacing.is_light()
    }

    /// A worker begins to wait.
    pub(crate) fn fall_asleep(&mut self)
        ensures { self.new ≡ self.old }
    {
        self.pacing.fall_asleep();
    }

    /// A worker waits no more.
    pub(crate) fn wake_up(&mut self)
        ensures { self.new ≡ self.old }
    {
        self.pacing.wake_up();
    }

    /// Whether all other workers wait.
    pub fn is_alone(&self) -> bool {
        self.pacing.is_alone()
    }

    /// Whether there is nothing to take before an open batch is done.
    pub fn must_wait(&self) -> bool
        ensures { IsTrue result ↔ MustWait self.now }
    {
        !self.ticks.marked && !self.batches.is_empty() && self.agenda.is_done()
    }

    /// Nothing changes. The amount of the whole share is the number of open batches.
    pub fn audit(&mut self, share: &mut Share<N>)
        requires { share.old.parts ≡ MAX_WORKERS }
        ensures same { (self.new ≡ self.old) × (share.new ≡ share.old) }
        ensures running { share.new.amount ≡ length self.new.running }
    {
        self.book.audit(&mut share.held);
    }

    /// Begins the next tick. False exactly where the last one was done. After `NoMemory` no further batch is given.
    pub fn next_tick(&mut self) -> Result<bool, NoMemory>
        requires { IsOver self.old }
        ensures { MatchResult result
            (λ more.
            MatchBool more
            (IsNextTick self.old self.new × (self.old.run.tick < self.old.run.scenario.ticks))
            ((self.new ≡ self.old) × (self.old.run.tick ≡ self.old.run.scenario.ticks)))
            (λ _. self.new ≡ with_stop self.old) }
    {
        if self.ticks.tick == self.ticks.scenario.ticks {
            return Ok(false);
        }
        self.ticks.marked = true;
        let Ticks {
            calendar,
            scenario,
            ..
        } = &mut self.ticks;
        post_all(calendar, scenario, self.records.recording(), self.before)?;
        let memory = self.agenda.take_memory(self.ticks.alloc);
        let mut items = self.ticks.begin(memory)?;
        group(&mut items);
        self.pacing.begin_tick(&items);
        self.agenda = Agenda::new(items);
        self.before = self.records.len();
        Ok(true)
    }

    /// The records of an actor so far.
    pub fn lane(&self, actor: Actor) -> Lane<N>
        ensures { result ≡ steps_of actor (records_of self.now.run) }
    {
        self.records.lane(actor)
    }

    /// Whether an actor has seen all of its records.
    pub fn is_seen_by(&self, lane: &Lane<N>) -> bool
        ensures { IsTrue result ↔ (lane.now ≡ steps_of lane.now.actor (records_of self.now.run)) }
    {
        self.records.is_seen_by(lane)
    }

    /// The scenario and the records, once the last tick was done.
    pub fn into_journal(self) -> Journal
        requires over { IsOver self }
        requires last { self.run.tick ≡ self.run.scenario.ticks }
        ensures scenario { result.scenario ≡ N.scenario }
        ensures records { run_in result ≡ records_of self.run }
        ensures scheduled { Scheduled N.scenario (run_in result) }
        ensures steps { AreSteps (group_of N.scenario) (run_in result) }
    {
        let FabricState { ticks, records, .. } = self;
        Journal {
            scenario: ticks.scenario,
            records: records.into_recording().into_list(),
        }
    }
}
