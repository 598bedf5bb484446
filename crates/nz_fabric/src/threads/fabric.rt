//! The lock around the network of several threads.

use crate::threads::fabric_state::FabricState;
use crate::threads::run_name::RunName;
use std::sync::{Condvar, Mutex, MutexGuard, Wait};

/// The state of a run on several threads, under its lock.
#[derive(Drop)]
pub struct Fabric<N: RunName> {
    state: Mutex<FabricState<N>>,
    moved: Condvar,
}

impl<N: RunName> Fabric<N> {
    pub fn new(state: FabricState<N>) -> Fabric<N> {
        Fabric {
            state: Mutex::new(state),
            moved: Condvar::new(),
        }
    }

    /// The state, until the guard is dropped. May wait.
    pub fn lock(&self, rt: &impl Wait) -> MutexGuard<'_, FabricState<N>> {
        self.state.lock(rt)
    }

    /// Waits while only batches of other workers are left. False where no further batch is given.
    pub fn wait(&self, rt: &impl Wait, guard: MutexGuard<'_, FabricState<N>>) -> bool {
        let mut guard = guard;
        guard.fall_asleep();
        let mut guard = self.moved.wait_while(rt, guard, |state| state.must_wait());
        guard.wake_up();
        !guard.is_marked()
    }

    /// Wakes the workers that wait.
    pub fn wake_all(&self) {
        self.moved.notify_all();
    }

    pub fn into_state(self) -> FabricState<N> {
        let Fabric { state, moved: _ } = self;
        state.into_inner()
    }
}
