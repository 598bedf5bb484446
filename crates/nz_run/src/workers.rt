//! What a worker does, tick after tick.

ghost use Rattle.std.specs.Prelude.{◌≡◌, ◌<◌, ℕ, length, All, slice_index_or};

use crate::shares::Worker;
use crate::stage::Stage;
use nz_base::MAX_WORKERS;
use nz_edge::Gate;
use nz_fabric::{Fabric, FabricState, RunName};
use std::sync::Wait;
use std::thread;
use std::thread::Threads;

/// Begins the next tick and plays it item by item as long as it is light, and so on. For a worker that has the network while
/// all others wait, or before they are started, so nobody holds an actor's lock while waiting for the network. True once a
/// tick is not light, false where no further item is given.
pub fn play_light_ticks<N: RunName, R: Wait>(
    rt: &R,
    stage: &Stage<N>,
    state: &mut FabricState<N>,
) -> bool {
    for _ in rt.forever() {
        if state.is_over() {
            if !state.next_tick().unwrap_or(false) {
                return false;
            }
        } else if !stage.step_next(rt, state) {
            return false;
        }
        if !state.is_light() {
            return true;
        }
    }
    unreachable!()
}

/// For a worker that was given no batch. Begins the next tick where all that was due in this one was recorded, and waits
/// where only batches of other workers are left. False where no further batch is given.
fn go_on<N: RunName, R: Wait>(rt: &R, stage: &Stage<N>, fabric: &Fabric<N>) -> bool {
    let mut guard = fabric.lock(rt);
    if !guard.is_over() {
        return fabric.wait(rt, guard);
    }
    let state = &mut *guard;
    let begun = if state.is_alone() {
        play_light_ticks(rt, stage, state)
    } else {
        state.next_tick().unwrap_or(false)
    };
    let wakes = !begun || !state.is_light();
    // Those that wake want the network.
    drop(guard);
    if wakes {
        fabric.wake_all();
    }
    begun
}

/// Takes batches, tick after tick, until no further one is given.
fn play_batches<N: RunName, R: Wait, G: Gate>(
    rt: &R,
    worker: &mut Worker<N>,
    stage: &Stage<N>,
    fabric: &Fabric<N>,
    gate: &G,
)
    requires { worker.old.share.amount ≡ 0 }
    ensures { (worker.new.share.amount ≡ 0) × (worker.new.share.parts ≡ worker.old.share.parts) }
{
    let mut taken = fabric.lock(rt).take(&mut worker.share);
    'batches: for _ in rt.forever() {
        taken = match taken {
            Ok(Some(batch)) => {
                stage.play(rt, batch, worker.number, gate, fabric, &mut worker.share)
            }
            Ok(None) => {
                if !go_on(rt, stage, fabric) {
                    return;
                }
                fabric.lock(rt).take(&mut worker.share)
            }
            Err(_) => return,
        };
    }
    unreachable!()
}

/// Does what a worker does, and then wakes the others, since no further batch is given.
fn work<N: RunName, R: Wait, G: Gate>(
    rt: &R,
    worker: &mut Worker<N>,
    stage: &Stage<N>,
    fabric: &Fabric<N>,
    gate: &G,
)
    requires { worker.old.share.amount ≡ 0 }
    ensures { (worker.new.share.amount ≡ 0) × (worker.new.share.parts ≡ worker.old.share.parts) }
{
    play_batches(rt, worker, stage, fabric, gate);
    fabric.wake_all();
}

/// All workers, each on a thread of its own.
pub fn work_all<N: RunName + Send + Sync, R: Threads + Wait + Sync, G: Gate + Sync>(
    rt: &R,
    workers: &mut [Worker<N>],
    stage: &Stage<N>,
    fabric: &Fabric<N>,
    gate: &G,
)
    requires { All (λ w. w.share.amount ≡ 0) workers.old }
    ensures { (k : ℕ) (d : _) → k < length workers.old
        → ((slice_index_or workers.new k d).share.amount ≡ 0)
        × ((slice_index_or workers.new k d).share.parts ≡ (slice_index_or workers.old k d).share.parts) }
{
    thread::for_each_mut(
        rt,
        workers,
        MAX_WORKERS,
        &|_, worker| work(rt, worker, stage, fabric, gate),
    );
}
