//! The network of a run on one thread.

ghost use Rattle.std.specs.Prelude.{◌≡◌, ◌⊎◌, ◌<◌, [], length, reverse, true, false, IfOk, OnOk, IfSome, MatchResult, MatchOption, MatchBool};
ghost use Rattle.nz_machine.specs.journals.Journals.{run_in};
ghost use Rattle.nz_machine.specs.runs.Schedule.{group_of, InOrder, IsPlayable};
ghost use Rattle.nz_machine.specs.journals.EventNotes.{AreNoted};
ghost use Rattle.nz_machine.specs.runs.World.{World};
ghost use Rattle.nz_fabric.specs.alone.States.{IsDone, IsKeptRun, IsNextItem, IsOpen};
ghost use Rattle.nz_fabric.specs.alone.States.{after_tick, records_of, start_state, with_mark, with_recorded, with_taken};

pub mod open_item;

use crate::schedule::agenda::Agenda;
use crate::schedule::due::clocks_of;
use crate::schedule::posting::post_all;
use crate::schedule::ticks::Ticks;
use nz_base::{NoMemory, Scenario};
use nz_machine::{Forgotten, Item, Journal, Notes, Record, Recording, Sends};
use open_item::OpenItem;
use std::alloc::Global;
use std::marker::Model;

/// The network of a run on one thread: what is due, and the records, which are in the order of the schedule. Contracts see
/// all of them, whether they are in memory or not.
#[derive(Drop)]
pub struct Alone {
    ticks: Ticks,
    agenda: Agenda,
    /// All records of the run, which take no memory.
    run: Forgotten,
    /// Those in memory: all but the first ones.
    records: Recording,
    /// How many are not in memory.
    gone: usize,
    /// How many there were before this tick.
    before: usize,
    /// Whether all are to be in memory.
    keeps: bool,
}

impl Model for Alone {
    ghost use Rattle.std.specs.Prelude.{◌+◌};
    ghost use Rattle.nz_fabric.specs.alone.States.{State, IsHeld, IsInMemory, state_in};

    ghost Value = { State };

    ghost view = { λ f. state_in f.ticks f.before f.run f.agenda.items f.agenda.next };

    ghost invariant = { λ f. IsHeld (state_in f.ticks f.before f.run f.agenda.items f.agenda.next)
        f.before (f.gone + f.records.room) f.run f.ticks.calendar
        × IsInMemory f.run f.records.records f.gone f.before f.keeps };
}

/// Lets the records go, unless all are to be in memory. With the `gone` ones that went earlier they are `count`. How many are
/// not in memory then.
fn let_go(records: &mut Recording, keeps: bool, gone: usize, count: usize) -> usize
    ensures { MatchBool keeps ((records.new ≡ records.old) × (result ≡ gone)) ((records.new.records ≡ []) × (result ≡ count)) }
{
    if keeps {
        return gone;
    }
    records.clear();
    count
}

impl Alone {
    /// A run that has not begun. It keeps all records in memory, or else those of a tick go when the next one begins.
    pub fn new(alloc: Global, scenario: Scenario, keeps: bool) -> Result<Alone, NoMemory>
        requires { IsPlayable scenario }
        ensures { IfOk result (λ alone. alone ≡ start_state scenario) }
    {
        // Each clock has a record, so where all are kept none of these places is left.
        let clocks = if keeps { clocks_of(&scenario) } else { 0 };
        let records = Recording::new(alloc, clocks)?;
        Ok(Alone {
            ticks: Ticks::new(alloc, scenario)?,
            agenda: Agenda::new(Vec::new(alloc)),
            run: Forgotten::new(),
            records,
            gone: 0,
            before: 0,
            keeps,
        })
    }

    /// Does nothing.
    pub fn show_invariant(&self)
        ensures { IsKeptRun self.now }
    {
        let _known = &self.ticks; // shows: the invariant of this type
    }

    /// How many records there are, in memory or not.
    fn count(&self) -> usize
        ensures { result ≡ length (records_of self.now) }
    {
        self.gone + self.records.len()
    }

    /// The tick that is played, 0 before the first.
    pub fn tick(&self) -> u32
        ensures { result ≡ self.now.tick }
    {
        self.ticks.tick
    }

    /// The next due item of the tick. Its place among the records is reserved here.
    pub fn take(&mut self) -> Result<Option<OpenItem>, NoMemory>
        requires { self.old.marked ≡ false → self.old.next ≡ length self.old.here }
        ensures { MatchResult result
            (λ opened.
            MatchOption opened
            ((self.new ≡ self.old) × ((self.old.marked ≡ true) ⊎ (self.old.next ≡ length self.old.items)))
            (λ opened. (self.new ≡ with_taken self.old) × (self.old.marked ≡ false) × IsNextItem self.old opened))
            (λ _. self.new ≡ self.old) }
    {
        if self.ticks.marked || self.agenda.is_done() {
            return Ok(None);
        }
        let count = self.count();
        if count >= u32::MAX as usize {
            return Err(NoMemory);
        }
        self.records.reserve(1)?;
        let Item { actor, event } = self.agenda.take();
        Ok(Some(OpenItem {
            number: count as u64 + 1,
            tick: self.ticks.tick,
            actor,
            event,
        }))
    }

    /// The record of the item comes last.
    pub fn record(&mut self, opened: OpenItem, sends: Sends)
        requires { IsOpen self.old opened }
        ensures { self.new ≡ with_recorded opened sends self.old }
    {
        let OpenItem {
            number: _,
            tick,
            actor,
            event,
        } = opened;
        let step = Record {
            tick,
            actor,
            event,
            sends,
        };
        self.run.push(&step);
        self.records.push_reserved(step);
    }

    /// Nothing is recorded, and no further item is given.
    pub fn give_up(&mut self, opened: OpenItem)
        requires { IsOpen self.old opened }
        ensures { self.new ≡ with_mark self.old }
    {
        opened.into_number();
        self.ticks.marked = true;
    }

    /// Begins the next tick. Where records are not kept, those of this one go. False exactly where the last tick was done.
    /// After `NoMemory` no further item is given.
    pub fn next_tick(&mut self) -> Result<bool, NoMemory>
        requires { IsDone self.old }
        ensures { MatchResult result
            (λ more.
            MatchBool more
            ((self.new ≡ after_tick self.old) × (self.old.tick < self.old.scenario.ticks))
            ((self.new ≡ self.old) × (self.old.tick ≡ self.old.scenario.ticks)))
            (λ _. self.new ≡ with_mark self.old) }
    {
        if self.ticks.tick == self.ticks.scenario.ticks {
            return Ok(false);
        }
        let count = self.count();
        self.ticks.marked = true;
        post_all(
            &mut self.ticks.calendar,
            &self.ticks.scenario,
            &self.records,
            self.before - self.gone,
        )?;
        let memory = self.agenda.take_memory(self.ticks.alloc);
        let items = self.ticks.begin(memory)?;
        self.agenda = Agenda::new(items);
        self.before = count;
        self.gone = let_go(&mut self.records, self.keeps, self.gone, count);
        Ok(true)
    }

    /// Notes the events of this tick's records.
    pub fn note(&self, alloc: Global, notes: &mut Notes) -> Result<(), NoMemory>
        ensures { let g = group_of self.now.scenario in OnOk result (World g (records_of self.now)
            → AreNoted g self.now.finished notes.old → AreNoted g (records_of self.now) notes.new) }
    {
        notes.read(
            alloc,
            &self.ticks.scenario,
            self.gone as u32,
            &self.records,
            self.before - self.gone,
        )
    }

    /// The scenario and the records, once the last tick was done. None where some of these are not in memory: never where
    /// all were to be kept.
    pub fn into_journal(self) -> Option<Journal>
        requires done { IsDone self }
        requires last { self.tick ≡ self.scenario.ticks }
        ensures scenario { IfSome result (λ journal. journal.scenario ≡ self.scenario) }
        ensures records { IfSome result (λ journal. run_in journal ≡ records_of self) }
        ensures in_order { IfSome result (λ journal. InOrder self.scenario (run_in journal)) }
    {
        let Alone {
            ticks,
            records,
            gone,
            ..
        } = self;
        if gone > 0 {
            return None;
        }
        Some(Journal {
            scenario: ticks.scenario,
            records: records.into_list(),
        })
    }

    /// The scenario, and the records, which take no memory, once the last tick was done.
    pub fn into_forgotten(self) -> (Scenario, Forgotten)
        requires done { IsDone self }
        requires last { self.tick ≡ self.scenario.ticks }
        ensures scenario { result.0 ≡ self.scenario }
        ensures records { reverse result.1 ≡ records_of self }
        ensures in_order { InOrder self.scenario (reverse result.1) }
    {
        let Alone { ticks, run, .. } = self;
        (ticks.scenario, run)
    }
}
