//! The lock around an actor, and how a batch is played under it.

ghost use Rattle.std.specs.Prelude.{◌<◌};
ghost use Rattle.nz_fabric.specs.threads.Shared.{ClosesAndTakes, PlaysNext};

use crate::state::ActorState;
use nz_base::NoMemory;
use nz_edge::Gate;
use nz_fabric::{Fabric, FabricState, RunName, Share, Taken};
use nz_machine::Core;
use std::sync::{Mutex, Wait};

/// An actor's state under its lock.
pub struct ActorCell<N: RunName, C: Core> {
    state: Mutex<ActorState<N, C>>,
}

impl<N: RunName, C: Core> ActorCell<N, C> {
    pub fn new(state: ActorState<N, C>) -> ActorCell<N, C> {
        ActorCell {
            state: Mutex::new(state),
        }
    }

    /// The state, while no other thread has the cell.
    pub fn state(&mut self) -> &mut ActorState<N, C> {
        self.state.get_mut()
    }

    /// The state, which no other thread has then.
    pub fn into_state(self) -> ActorState<N, C> {
        let ActorCell { state } = self;
        state.into_inner()
    }

    /// Plays the batch under the actor's lock, and records it before the lock is let go. A batch that is not the
    /// actor's is given up, and one in which a step runs out of memory. Gives the next batch of the worker. May wait.
    pub fn play(
        &self,
        rt: &impl Wait,
        batch: Taken<N>,
        worker: u8,
        gate: &impl Gate,
        fabric: &Fabric<N>,
        share: &mut Share<N>,
    ) -> Result<Option<Taken<N>>, NoMemory>
        requires { 0 < share.old.amount }
        ensures { ClosesAndTakes result share.old share.new }
    {
        let mut state = self.state.lock(rt);
        gate.arrive(worker, batch.batch().number);
        if !state.is_ready(&batch) {
            fabric.lock(rt).give_up(batch, share);
            return Ok(None);
        }
        state.play(rt, batch, fabric, share)
    }

    /// Plays the next item of the network under the actor's lock, and records it at once. Where it is not the actor's, or
    /// there is no memory, no further item is given. May wait.
    pub fn step_next(&self, rt: &impl Wait, fabric: &mut FabricState<N>) -> bool
        ensures { PlaysNext result fabric.old fabric.new }
    {
        let mut state = self.state.lock(rt);
        if !state.is_next(fabric) {
            fabric.stop();
            return false;
        }
        state.step_next(fabric)
    }
}

impl<N: RunName, C: Core + Drop> Drop for ActorCell<N, C> {
    fn drop(self) {
        let ActorCell { state: _ } = self;
    }
}
