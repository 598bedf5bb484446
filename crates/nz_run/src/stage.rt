//! All actors, each under its own lock.

ghost use Rattle.std.specs.Prelude.{◌≡◌, ◌+◌, ◌<◌, [], length, All, IfOk, IfSome};
ghost use Rattle.nz_machine.specs.runs.Schedule.{group_of, IsPlayable};
ghost use Rattle.nz_fabric.specs.alone.States.{records_of};
ghost use Rattle.nz_replica.specs.Models.{AreCores, IsCore};
ghost use Rattle.nz_run.specs.Stages.{HasNotStepped};
ghost use Rattle.nz_fabric.specs.threads.Shared.{ClosesAndTakes, ClosesBatch, PlaysNext};

use crate::cast::Cast;
use nz_actor::{ActorCell, ActorState};
use nz_base::{Actor, NoMemory, Scenario};
use nz_client::Client;
use nz_edge::Gate;
use nz_fabric::{Fabric, FabricState, RunName, Share, Taken};
use nz_machine::Core;
use nz_proxy::Proxy;
use nz_replica::Replica;
use std::alloc::Global;
use std::sync::Wait;

/// All actors, each under its own lock and found by its number.
#[derive(Drop)]
pub struct Stage<N: RunName> {
    pub replicas: Vec<ActorCell<N, Replica>>,
    pub proxies: Vec<ActorCell<N, Proxy>>,
    pub clients: Vec<ActorCell<N, Client>>,
}

/// Each core under a lock, before the first record.
fn cells_of<N: RunName, C: Core + Drop>(
    alloc: Global,
    cores: Vec<C>,
    state: &FabricState<N>,
) -> Result<Vec<ActorCell<N, C>>, NoMemory>
    requires none { records_of state.now.run ≡ [] }
    requires cores { All (λ core. HasNotStepped (group_of N.scenario) (C.meaning core) (C.live core) (C.fits core (group_of N.scenario))) cores.items }
{
    let mut cells = Vec::new(alloc);
    for core in cores {
        let lane = state.lane(core.actor());
        cells.push(ActorCell::new(ActorState::new(alloc, core, lane)))?;
    }
    Ok(cells)
}

/// The cell of a place plays the batch. Where there is none it is given up. Gives the next batch of the worker.
pub fn play_at<N: RunName, C: Core>(
    rt: &impl Wait,
    cells: &[ActorCell<N, C>],
    place: u8,
    batch: Taken<N>,
    worker: u8,
    gate: &impl Gate,
    fabric: &Fabric<N>,
    share: &mut Share<N>,
) -> Result<Option<Taken<N>>, NoMemory>
    requires { 0 < share.old.amount }
    ensures { ClosesAndTakes result share.old share.new }
{
    let Some(cell) = cells.get(usize::from(place)) else {
        fabric.lock(rt).give_up(batch, share);
        return Ok(None);
    };
    cell.play(rt, batch, worker, gate, fabric, share)
}

/// The cell of a place plays the next item. Where there is none no further item is given.
fn step_at<N: RunName, C: Core>(
    rt: &impl Wait,
    cells: &[ActorCell<N, C>],
    place: u8,
    state: &mut FabricState<N>,
) -> bool
    ensures { PlaysNext result state.old state.new }
{
    let Some(cell) = cells.get(usize::from(place)) else {
        state.stop();
        return false;
    };
    cell.step_next(rt, state)
}

/// Plays the batch where no other thread has the cells.
fn settle_at<N: RunName, C: Core>(
    cells: &mut [ActorCell<N, C>],
    place: u8,
    batch: Taken<N>,
    state: &mut FabricState<N>,
    share: &mut Share<N>,
)
    requires { 0 < share.old.amount }
    ensures share { ClosesBatch share.old share.new }
    ensures run { (state.new.run.items ≡ state.old.run.items) × (state.new.run.next ≡ state.old.run.next) }
{
    let Some(cell) = cells.get_mut(usize::from(place)) else {
        state.give_up(batch, share);
        return;
    };
    let own = cell.state();
    if !own.is_ready(&batch) {
        state.give_up(batch, share);
        return;
    }
    own.settle(batch, state, share);
}

/// The replica of a place, where all of its records led it to its state.
fn replica_at<N: RunName>(
    cell: ActorCell<N, Replica>,
    place: usize,
    state: &FabricState<N>,
) -> Option<Replica>
    ensures { IfSome result (IsCore (group_of N.scenario) (records_of state.now.run) place) }
{
    let core = cell.into_state().into_core(state)?;
    match core.actor() {
        Actor::Replica(number) if usize::from(number) == place => Some(core),
        _ => None,
    }
}

impl<N: RunName> Stage<N> {
    /// Actors that have not stepped.
    pub fn new(
        alloc: Global,
        scenario: &Scenario,
        state: &FabricState<N>,
    ) -> Result<Stage<N>, NoMemory>
        requires none { records_of state.now.run ≡ [] }
        requires scenario { scenario.now ≡ N.scenario }
        requires playable { IsPlayable scenario.now }
    {
        let Cast {
            replicas,
            proxies,
            clients,
        } = Cast::new(alloc, scenario)?;
        Ok(Stage {
            replicas: cells_of(alloc, replicas, state)?,
            proxies: cells_of(alloc, proxies, state)?,
            clients: cells_of(alloc, clients, state)?,
        })
    }

    /// The batch's actor plays it under its lock. Gives the next batch of the worker. May wait.
    pub fn play(
        &self,
        rt: &impl Wait,
        batch: Taken<N>,
        worker: u8,
        gate: &impl Gate,
        fabric: &Fabric<N>,
        share: &mut Share<N>,
    ) -> Result<Option<Taken<N>>, NoMemory>
        requires { 0 < share.old.amount }
        ensures { ClosesAndTakes result share.old share.new }
    {
        match batch.batch().actor {
            Actor::Replica(place) => {
                play_at(
                    rt,
                    &self.replicas,
                    place,
                    batch,
                    worker,
                    gate,
                    fabric,
                    share,
                )
            }
            Actor::Proxy(place) => {
                play_at(rt, &self.proxies, place, batch, worker, gate, fabric, share)
            }
            Actor::Client(place) => {
                play_at(rt, &self.clients, place, batch, worker, gate, fabric, share)
            }
        }
    }

    /// The next item's actor plays it under its lock, and it is recorded at once. Where it is not, no further item is given.
    /// May wait.
    pub fn step_next(&self, rt: &impl Wait, state: &mut FabricState<N>) -> bool
        ensures { PlaysNext result state.old state.new }
    {
        let Some(item) = state.next_item() else {
            state.stop();
            return false;
        };
        match item.actor {
            Actor::Replica(place) => step_at(rt, &self.replicas, place, state),
            Actor::Proxy(place) => step_at(rt, &self.proxies, place, state),
            Actor::Client(place) => step_at(rt, &self.clients, place, state),
        }
    }

    /// The batch's actor plays it where no other thread has the actors.
    pub fn settle(&mut self, batch: Taken<N>, state: &mut FabricState<N>, share: &mut Share<N>)
        requires { 0 < share.old.amount }
        ensures share { ClosesBatch share.old share.new }
        ensures run { (state.new.run.items ≡ state.old.run.items) × (state.new.run.next ≡ state.old.run.next) }
    {
        match batch.batch().actor {
            Actor::Replica(place) => settle_at(&mut self.replicas, place, batch, state, share),
            Actor::Proxy(place) => settle_at(&mut self.proxies, place, batch, state, share),
            Actor::Client(place) => settle_at(&mut self.clients, place, batch, state, share),
        }
    }

    /// The replicas, by their numbers, up to the first that has not all of its records.
    pub fn into_replicas(
        self,
        alloc: Global,
        state: &FabricState<N>,
    ) -> Result<Vec<Replica>, NoMemory>
        ensures { IfOk result (λ replicas. AreCores (group_of N.scenario) (records_of state.now.run) replicas.items) }
    {
        let mut replicas = Vec::new(alloc);
        for cell in self.replicas {
            let Some(replica) = replica_at(cell, replicas.len(), state) else {
                break;
            };
            replicas.push(replica)?;
        }
        Ok(replicas)
    }
}
