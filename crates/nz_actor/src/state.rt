//! An actor's core with what the actor knows of its records.

ghost use Rattle.std.specs.Prelude.{◌≡◌, ◌↔◌, ◌<◌, ℕ, [], true, false, IfSome, IsTrue, MatchBool};
ghost use Rattle.nz_machine.specs.runs.Schedule.{group_of};
ghost use Rattle.nz_machine.specs.rules.Step.{first_node};
ghost use Rattle.nz_fabric.specs.threads.Records.{steps_of};
ghost use Rattle.nz_fabric.specs.threads.Shared.{with_record, ClosesAndTakes, ClosesBatch, IsGivenUp};
ghost use Rattle.nz_fabric.specs.threads.Shared.{next_item, with_next, with_stop, HasNext};
ghost use Rattle.nz_fabric.specs.alone.States.{records_of};
ghost use Rattle.nz_fabric.specs.threads.Steps.{sends_after};
ghost use Rattle.nz_actor.specs.Actings.{sends_in, with_batch, with_item, IsStopped, IsThere};

use crate::steps::step_all;
use nz_base::NoMemory;
use nz_fabric::{Fabric, FabricState, Lane, RunName, Share, Taken};
use nz_machine::Core;
use std::alloc::Global;
use std::marker::Model;
use std::sync::Wait;

/// An actor's core, and the actor's lane.
#[derive(Drop)]
pub struct ActorState<N: RunName, C: Core> {
    core: C,
    lane: Lane<N>,
    /// Whether the core has the state that the records of the lane lead to.
    ready: bool,
    /// Gives the memory for the sends of a batch.
    alloc: Global,
}

impl<N: RunName, C: Core> Model for ActorState<N, C> {
    ghost use Rattle.nz_machine.specs.runs.Schedule.{group_of};
    ghost use Rattle.nz_actor.specs.Actings.{Acting, IsActing};

    ghost Value = { Acting };

    ghost view = { λ s. record { own = s.lane; ready = s.ready } };

    ghost invariant = { λ s. IsActing (group_of N.scenario) (C.meaning s.core) (C.live s.core)
        (C.fits s.core (group_of N.scenario)) (record { own = s.lane; ready = s.ready }) };
}

impl<N: RunName, C: Core> ActorState<N, C> {
    /// A core that has not stepped.
    pub fn new(alloc: Global, core: C, lane: Lane<N>) -> ActorState<N, C>
        requires fits { C.fits core (group_of N.scenario) }
        requires first { C.meaning core ≡ first_node (group_of N.scenario) (C.meaning core).actor }
        requires live { C.live core ≡ true }
        requires lane { lane ≡ record { actor = (C.meaning core).actor; steps = [] } }
        ensures { result ≡ record { own = lane; ready = true } }
    {
        ActorState {
            core,
            lane,
            ready: true,
            alloc,
        }
    }

    /// Whether the batch is this actor's, and the actor takes batches.
    pub fn is_ready(&self, batch: &Taken<N>) -> bool
        ensures { IsTrue result ↔ ((self.now.ready ≡ true) × (batch.now.actor ≡ self.now.own.actor)) }
    {
        self.ready && batch.batch().actor.is(&self.lane.actor())
    }

    /// The core takes the events of the batch, and then the batch is recorded. Where it is not, it is given up, and the actor
    /// takes no further batch. Gives the next batch of the worker. The network is locked only to record the one and to take
    /// the other. May wait.
    pub fn play(
        &mut self,
        rt: &impl Wait,
        batch: Taken<N>,
        fabric: &Fabric<N>,
        share: &mut Share<N>,
    ) -> Result<Option<Taken<N>>, NoMemory>
        requires open { 0 < share.old.amount }
        requires ready { self.old.ready ≡ true }
        requires actor { batch.actor ≡ self.old.own.actor }
        ensures recorded { MatchBool self.new.ready ((tick : ℕ) × (self.new ≡ with_batch (group_of N.scenario) tick batch self.old)) (IsStopped self.old self.new) }
        ensures share { ClosesAndTakes result share.old share.new }
    {
        self.ready = false;
        let events = &batch.batch().events;
        let Ok(sends) = step_all(self.alloc, &mut self.core, events.as_slice()) else {
            fabric.lock(rt).give_up(batch, share);
            return Ok(None);
        };
        let mut guard = fabric.lock(rt);
        self.ready = guard.record(batch, sends, share, &mut self.lane);
        guard.take(share)
    }

    /// Plays the batch where no other thread has the network.
    pub fn settle(
        &mut self,
        batch: Taken<N>,
        fabric: &mut FabricState<N>,
        share: &mut Share<N>,
    ) -> bool
        requires open { 0 < share.old.amount }
        requires ready { self.old.ready ≡ true }
        requires actor { batch.actor ≡ self.old.own.actor }
        ensures recorded { MatchBool result
            ((self.old.own ≡ steps_of batch.actor (records_of fabric.old.run))
            × (self.new ≡ with_batch (group_of N.scenario) fabric.old.run.tick batch self.old))
            (IsStopped self.old self.new) }
        ensures fabric { MatchBool result
            (fabric.new ≡ with_record batch.number (sends_in (group_of N.scenario) self.old.own batch) fabric.old)
            (IsGivenUp batch.number fabric.old fabric.new) }
        ensures share { ClosesBatch share.old share.new }
    {
        self.ready = false;
        let events = &batch.batch().events;
        let Ok(sends) = step_all(self.alloc, &mut self.core, events.as_slice()) else {
            fabric.give_up(batch, share);
            return false;
        };
        self.ready = fabric.record(batch, sends, share, &mut self.lane);
        self.ready
    }

    /// Whether the next item of the network is this actor's, and the actor takes items.
    pub fn is_next(&self, fabric: &FabricState<N>) -> bool
        ensures { IsTrue result ↔ (HasNext fabric.now × ((self.now.ready ≡ true) × ((next_item fabric.now).actor ≡ self.now.own.actor))) }
    {
        match fabric.next_item() {
            Some(item) => self.ready && item.actor.is(&self.lane.actor()),
            None => false,
        }
    }

    /// The core takes the next item of the network, which is recorded at once. Where it is not, no further item is given,
    /// and the actor takes none.
    pub fn step_next(&mut self, fabric: &mut FabricState<N>) -> bool
        requires next { HasNext fabric.old }
        requires ready { self.old.ready ≡ true }
        requires actor { (next_item fabric.old).actor ≡ self.old.own.actor }
        ensures recorded { MatchBool result
            ((self.old.own ≡ steps_of self.old.own.actor (records_of fabric.old.run))
            × (self.new ≡ with_item (group_of N.scenario) fabric.old self.old))
            (self.new ≡ record self.old { ready = false }) }
        ensures fabric { MatchBool result
            (fabric.new ≡ with_next (sends_after (group_of N.scenario) self.old.own (next_item fabric.old).event) fabric.old)
            (fabric.new ≡ with_stop fabric.old) }
    {
        let Some(item) = fabric.next_item() else {
            unreachable!();
        };
        self.ready = false;
        let Ok(sends) = self.core.step(&item.event) else {
            fabric.stop();
            return false;
        };
        self.ready = fabric.record_next(sends, &mut self.lane);
        self.ready
    }
}

impl<N: RunName, C: Core + Drop> ActorState<N, C> {
    /// The core, where all of its actor's records led it to its state.
    pub fn into_core(self, fabric: &FabricState<N>) -> Option<C>
        ensures fits { IfSome result (λ core. C.fits core (group_of N.scenario)) }
        ensures there { IfSome result (λ core. IsThere (group_of N.scenario)
            (steps_of (C.meaning core).actor (records_of fabric.now.run)) (C.meaning core) (C.live core)) }
    {
        let ActorState {
            core,
            lane,
            ready,
            ..
        } = self;
        if ready && fabric.is_seen_by(&lane) {
            Some(core)
        } else {
            None
        }
    }
}
