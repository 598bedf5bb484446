//! A run on one thread that is played tick by tick.

ghost use Rattle.std.specs.Prelude.{◌≡◌, ◌+◌, ◌<◌, ◌≤◌, [], length, reverse, MatchBool, MatchOption, IfOk, IfSome, OnOk};
ghost use Rattle.nz_base.specs.Cluster.{replica_count};
ghost use Rattle.nz_fabric.specs.alone.States.{IsDone, HasNoOpenItem};
ghost use Rattle.nz_machine.specs.journals.Journals.{group_in, run_in};
ghost use Rattle.nz_machine.specs.runs.Schedule.{group_of, InOrder, IsPlayable};
ghost use Rattle.nz_machine.specs.journals.EventNotes.{AreNoted};
ghost use Rattle.nz_machine.specs.runs.World.{World};
ghost use Rattle.nz_replica.specs.Models.{AreCores, IsCore};
ghost use Rattle.nz_run.specs.Casts.{IsUnderWay};
ghost use Rattle.nz_run.specs.Playing.{IsAtEnd, IsNextTick, scenario_of, tick_of, run_of, earlier_of};

use crate::cast::Cast;
use crate::played::Played;
use nz_base::{NoMemory, Scenario, TryCopy};
use nz_fabric::Alone;
use nz_machine::{Forgotten, Notes};
use nz_replica::Replica;
use std::alloc::Global;

/// A run on one thread that goes on.
#[derive(Drop)]
pub struct Playing {
    alone: Alone,
    cast: Cast,
}

/// Plays the next due item of the tick. False where there is none left.
fn play_next(alone: &mut Alone, cast: &mut Cast) -> Result<bool, NoMemory>
    requires none_open { HasNoOpenItem alone.old }
    requires under_way { IsUnderWay alone.old cast.old }
    ensures { IfOk result (λ more. MatchBool more
        (HasNoOpenItem alone.new × (IsUnderWay alone.new cast.new
        × ((alone.new ≡ record alone.old { here = alone.new.here; next = alone.old.next + 1 }) × (alone.old.next < length alone.old.items))))
        ((alone.new ≡ alone.old) × ((cast.new ≡ cast.old) × (alone.old.next ≡ length alone.old.items)))) }
{
    alone.show_invariant();
    let Some(opened) = alone.take()? else {
        return Ok(false);
    };
    match cast.step(opened.actor, &opened.event) {
        Ok(sends) => {
            alone.record(opened, sends);
            Ok(true)
        }
        Err(error) => {
            alone.give_up(opened);
            Err(error)
        }
    }
}

/// Plays what is left of a tick.
fn play_rest(alone: &mut Alone, cast: &mut Cast) -> Result<(), NoMemory>
    requires none_open { HasNoOpenItem alone.old }
    requires under_way { IsUnderWay alone.old cast.old }
    ensures done { OnOk result (IsDone alone.new) }
    ensures under_way { OnOk result (IsUnderWay alone.new cast.new) }
    ensures scenario { OnOk result (alone.new.scenario ≡ alone.old.scenario) }
    ensures tick { OnOk result (alone.new.tick ≡ alone.old.tick) }
    ensures earlier { OnOk result (alone.new.finished ≡ alone.old.finished) }
{
    'items: while play_next(alone, cast)? {}
    Ok(())
}

impl Playing {
    /// A run that has not begun. With `keeps` its records stay in memory.
    pub fn new(alloc: Global, scenario: &Scenario, keeps: bool) -> Result<Playing, NoMemory>
        requires { IsPlayable scenario.now }
        ensures at_end { IfOk result IsAtEnd }
        ensures scenario { IfOk result (λ playing. scenario_of playing ≡ scenario.now) }
        ensures tick { IfOk result (λ playing. tick_of playing ≡ 0) }
        ensures run { IfOk result (λ playing. run_of playing ≡ []) }
    {
        Ok(Playing {
            cast: Cast::new(alloc, scenario)?,
            alone: Alone::new(alloc, scenario.copy(alloc)?, keeps)?,
        })
    }

    /// Plays the next tick. False exactly where the last one was played.
    pub fn play_tick(&mut self) -> Result<bool, NoMemory>
        requires { IsAtEnd self.old }
        ensures { IfOk result (λ more. MatchBool more
            (IsNextTick self.old self.new)
            ((self.new ≡ self.old) × (tick_of self.old ≡ (scenario_of self.old).ticks))) }
    {
        self.alone.show_invariant();
        if !self.alone.next_tick()? {
            return Ok(false);
        }
        play_rest(&mut self.alone, &mut self.cast)?;
        self.alone.show_invariant();
        Ok(true)
    }

    /// The tick that was played last.
    pub fn tick(&self) -> u32
        ensures { result ≡ tick_of self.now }
    {
        self.alone.tick()
    }

    /// Notes the events of the last tick's records.
    pub fn note(&self, alloc: Global, notes: &mut Notes) -> Result<(), NoMemory>
        requires { IsAtEnd self.now }
        ensures { OnOk result (AreNoted (group_of (scenario_of self.now)) (earlier_of self.now) notes.old
            → AreNoted (group_of (scenario_of self.now)) (run_of self.now) notes.new) }
    {
        self.alone.note(alloc, notes)
    }

    /// The replicas after the last tick, by their numbers.
    pub fn replicas(&self) -> &[Replica]
        requires { IsAtEnd self.now }
        ensures cores { AreCores (group_of (scenario_of self.now)) (run_of self.now) result.now }
        ensures all { length result.now ≡ replica_count (scenario_of self.now).cluster }
    {
        self.cast.replicas.as_slice()
    }

    /// The replica with this number, None where the cluster has none.
    pub fn replica(&self, number: u8) -> Option<&Replica>
        requires { IsAtEnd self.now }
        ensures { let g = group_of (scenario_of self.now) in MatchOption result (replica_count g.f ≤ number)
            (λ replica. (number < replica_count g.f) × IsCore g (run_of self.now) number replica.now) }
    {
        self.replicas().get(usize::from(number))
    }

    /// The journal and the replicas, after the last tick. None where records went.
    pub fn into_played(self) -> Option<Played>
        requires at_end { IsAtEnd self }
        requires last { tick_of self ≡ (scenario_of self).ticks }
        ensures scenario { IfSome result (λ played. played.journal.scenario ≡ scenario_of self) }
        ensures records { IfSome result (λ played. run_in played.journal ≡ run_of self) }
        ensures in_order { IfSome result (λ played. InOrder (scenario_of self) (run_in played.journal)) }
        ensures world { IfSome result (λ played. World (group_in played.journal) (run_in played.journal)) }
        ensures replicas { IfSome result (λ played. AreCores (group_in played.journal) (run_in played.journal) played.replicas.items) }
        ensures all { IfSome result (λ played. length played.replicas.items ≡ replica_count (scenario_of self).cluster) }
    {
        let Playing { alone, cast } = self;
        let Some(journal) = alone.into_journal() else {
            return None;
        };
        Some(Played {
            journal,
            replicas: cast.into_replicas(),
        })
    }

    /// The scenario and the records, after the last tick.
    pub fn into_forgotten(self) -> (Scenario, Forgotten)
        requires at_end { IsAtEnd self }
        requires last { tick_of self ≡ (scenario_of self).ticks }
        ensures scenario { result.0 ≡ scenario_of self }
        ensures records { reverse result.1 ≡ run_of self }
        ensures in_order { InOrder (scenario_of self) (reverse result.1) }
        ensures world { World (group_of (scenario_of self)) (reverse result.1) }
    {
        let Playing { alone, .. } = self;
        alone.into_forgotten()
    }
}
