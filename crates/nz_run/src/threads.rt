//! A run by several workers.

ghost use Rattle.std.specs.Prelude.{◌≡◌, ◌⊎◌, ◌<◌, ◌≤◌, length, true, IfOk, IfSome, OnOk};
ghost use Rattle.nz_machine.specs.journals.Journals.{group_in, run_in};
ghost use Rattle.nz_machine.specs.runs.Schedule.{InOrder, IsPlayable, Scheduled};
ghost use Rattle.nz_machine.specs.runs.World.{World};
ghost use Rattle.nz_fabric.specs.threads.Shared.{IsOver, IsWhole};
ghost use Rattle.nz_base.specs.Cluster.{replica_count};
ghost use Rattle.nz_replica.specs.Models.{AreCores};
ghost use Rattle.nz_base.specs.declared.limits.TheConstants.{MAX_WORKERS};

use crate::alone::run_alone;
use crate::played::Played;
use crate::shares::{deal, gather};
use crate::stage::Stage;
use crate::workers::{play_light_ticks, work_all};
use nz_base::{MAX_WORKERS, NoMemory, Scenario, TryCopy};
use nz_edge::Gate;
use nz_fabric::{Fabric, FabricState, Opened, RunName, Share};
use std::alloc::Global;
use std::marker::Brand;
use std::sync::Wait;
use std::sync::ledger::Blank;
use std::thread::Threads;

/// Does what is left of the tick.
fn finish<N: RunName>(
    state: &mut FabricState<N>,
    share: &mut Share<N>,
    stage: &mut Stage<N>,
) -> Result<(), NoMemory>
    requires { IsWhole share.old }
    ensures whole { IsWhole share.new }
    ensures running { OnOk result (length state.new.running ≡ 0) }
    ensures done { OnOk result ((state.new.run.marked ≡ true) ⊎ (state.new.run.next ≡ length state.new.run.items)) }
{
    'left: while let Some(batch) = state.take(share)? {
        stage.settle(batch, state, share);
    }
    state.audit(share);
    Ok(())
}

/// All ticks, but what is left of them where memory runs out. One worker plays alone until a tick is not light, and only then
/// are the others started. The whole share comes back, with no batch on it.
fn play_ticks<N: RunName + Send + Sync, R: Threads + Wait + Sync, G: Gate + Sync>(
    rt: &R,
    alloc: Global,
    state: FabricState<N>,
    share: Share<N>,
    count: u8,
    stage: &Stage<N>,
    gate: &G,
) -> Result<(FabricState<N>, Share<N>), NoMemory>
    requires share { IsWhole share }
    requires count { (0 < count) × (count ≤ MAX_WORKERS) }
    ensures { IfOk result (λ r. IsWhole r.1) }
{
    let mut state = state;
    if !play_light_ticks(rt, stage, &mut state) {
        return Ok((state, share));
    }
    let mut workers = Vec::new(alloc);
    workers.reserve(MAX_WORKERS)?;
    deal(share, &mut workers, count);
    let fabric = Fabric::new(state);
    work_all(rt, workers.as_mut_slice(), stage, &fabric, gate);
    let share = gather(workers);
    Ok((fabric.into_state(), share))
}

/// Does what the workers left. `None` where a batch was given up.
fn finish_all<N: RunName, R: Wait>(
    rt: &R,
    state: FabricState<N>,
    share: Share<N>,
    stage: &mut Stage<N>,
) -> Result<Option<FabricState<N>>, NoMemory>
    requires share { IsWhole share }
    ensures { IfOk result (λ o. IfSome o (λ state. IsOver state × (state.run.tick ≡ state.run.scenario.ticks))) }
{
    let mut state = state;
    let mut share = share;
    'ticks: for _ in rt.forever() {
        finish(&mut state, &mut share, stage)?;
        if state.is_marked() {
            return Ok(None);
        }
        if !state.next_tick()? {
            return Ok(Some(state));
        }
    }
    unreachable!()
}

/// A run under its name. `None` where it is to be done anew.
fn run_named<N: RunName + Send + Sync, R: Threads + Wait + Sync, G: Gate + Sync>(
    rt: &R,
    alloc: Global,
    blank: Blank,
    opened: Opened,
    scenario: &Scenario,
    count: u8,
    gate: &G,
) -> Result<Option<Played>, NoMemory>
    requires name { (blank.name ≡ N.name) × (blank.parts ≡ N.parts) × (blank.parts ≡ MAX_WORKERS) }
    requires chronicles { opened ≡ N.chronicles }
    requires scenario { scenario.now ≡ N.scenario }
    requires playable { IsPlayable scenario.now }
    requires count { (0 < count) × (count ≤ MAX_WORKERS) }
    ensures run { IfOk result (λ o. IfSome o (λ played. (played.journal.scenario ≡ scenario.now)
        × (Scheduled scenario.now (run_in played.journal) × World (group_in played.journal) (run_in played.journal)))) }
    ensures replicas { IfOk result (λ o. IfSome o (λ played. AreCores (group_in played.journal) (run_in played.journal) played.replicas.items)) }
{
    let (state, share) = FabricState::<N>::new(alloc, blank, opened, scenario.copy(alloc)?, count)?;
    let mut stage = Stage::<N>::new(alloc, scenario, &state)?;
    let (state, share) = play_ticks(rt, alloc, state, share, count, &stage, gate)?;
    let Some(state) = finish_all(rt, state, share, &mut stage)? else {
        return Ok(None);
    };
    let replicas = stage.into_replicas(alloc, &state)?;
    Ok(Some(Played {
        journal: state.into_journal(),
        replicas,
    }))
}

/// As many of the workers as can have something to do: one worker does an actor's items of a tick.
fn useful(workers: u8, scenario: &Scenario) -> u8
    requires { (0 < workers) × (workers ≤ MAX_WORKERS) }
    ensures { (0 < result) × (result ≤ MAX_WORKERS) }
{
    let actors = scenario
        .cluster
        .n()
        .saturating_add(scenario.proxies)
        .saturating_add(scenario.clients);
    workers.min(actors.max(1))
}

/// A run by this many workers, whichever does what. It may be done anew on one thread, and is with one worker. With
/// several workers the last replicas, or all, may be missing. May wait.
pub fn run<R: Threads + Wait + Sync, G: Gate + Sync>(
    rt: &R,
    alloc: Global,
    scenario: &Scenario,
    workers: u8,
    gate: &G,
) -> Result<Played, NoMemory>
    requires playable { IsPlayable scenario.now }
    requires workers { (0 < workers) × (workers ≤ MAX_WORKERS) }
    ensures scenario { IfOk result (λ played. played.journal.scenario ≡ scenario.now) }
    ensures scheduled { IfOk result (λ played. Scheduled scenario.now (run_in played.journal)) }
    ensures in_order { workers ≡ 1 → IfOk result (λ played. InOrder scenario.now (run_in played.journal)) }
    ensures world { IfOk result (λ played. World (group_in played.journal) (run_in played.journal)) }
    ensures replicas { IfOk result (λ played. AreCores (group_in played.journal) (run_in played.journal) played.replicas.items) }
    ensures all { workers ≡ 1 → IfOk result (λ played. length played.replicas.items ≡ replica_count scenario.now.cluster) }
{
    if workers == 1 {
        return run_alone(alloc, scenario);
    }
    let opened = Opened::new();
    match run_named::<Brand, R, G>(
        rt,
        alloc,
        Blank::new(MAX_WORKERS as u64),
        opened,
        scenario,
        useful(workers, scenario),
        gate,
    )? {
        Some(played) => Ok(played),
        None => run_alone(alloc, scenario),
    }
}
