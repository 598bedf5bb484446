//! One that looks at a replica at the end of each tick.

ghost use Rattle.std.specs.Prelude.{◌≡◌, ◌≤◌, ◌<◌, ◌+◌, ◌++◌, ℕ, List, [], MatchOption, OnOk};
ghost use Rattle.std.specs.List.{AllByRecursion};
ghost use Rattle.nz_base.specs.Cluster.{replica_count};
ghost use Rattle.nz_machine.specs.declared.event.Record.{Record};
ghost use Rattle.nz_machine.specs.rules.State.{Group};
ghost use Rattle.nz_machine.specs.runs.World.{World};
ghost use Rattle.nz_replica.specs.Models.{IsCore};
ghost use Rattle.nz_observe.specs.Following.{AreUpTo};
ghost use Rattle.nz_observe.specs.Observed.{observed};
ghost use Rattle.nz_observe.specs.Observing.{IsObserving, CanExecute, after_look};

use crate::known::Known;
use crate::lines::Lines;
use nz_base::{Blob, NoMemory};
use nz_replica::Replica;
use std::alloc::Global;

/// One that looks at a replica at the end of each tick, and notes what it sees.
#[derive(Drop)]
pub struct Observer {
    known: Known,
    lines: Lines,
}

impl Observer {
    /// Before the first tick.
    pub fn new(alloc: Global) -> Observer
        ensures { (g : Group) (m : ℕ) (key : List ℕ) → IsObserving g m key 0 [] result }
    {
        Observer {
            known: Known::nothing(alloc),
            lines: Lines::new(alloc),
        }
    }

    /// Looks at the replica at the end of the tick, None where the cluster has no replica of that number.
    pub fn look(
        &mut self,
        alloc: Global,
        replica: Option<&Replica>,
        key: &[u8],
        tick: u32,
    ) -> Result<(), NoMemory>
        ensures { OnOk result ((g : Group) (J H : List Record) (m before : ℕ) → tick ≡ before + 1 → World g (H ++ J)
            → AreUpTo before J → AllByRecursion (λ r. r.tick ≡ tick) H
            → MatchOption replica.entry (replica_count g.f ≤ m) (λ r. (m < replica_count g.f) × IsCore g (H ++ J) m r.now)
            → IsObserving g m key.now before J self.old → IsObserving g m key.now tick (H ++ J) self.new) }
    {
        match replica {
            Some(replica) => self.look_at(alloc, replica, key, tick),
            None => Ok(()),
        }
    }

    /// If the replica is up, what is newly committed is executed, and what is seen then is noted.
    fn look_at(
        &mut self,
        alloc: Global,
        replica: &Replica,
        key: &[u8],
        tick: u32,
    ) -> Result<(), NoMemory>
        ensures { OnOk result (CanExecute replica.now.model.state self.old.known
            → self.new ≡ after_look tick key.now replica.now.model.state self.old) }
    {
        let state = replica.state();
        if !state.is_up() {
            return Ok(());
        }
        state.show_invariant();
        self.known.execute_to(alloc, state.log(), state.commit())?;
        let value = self.known.store.get(key);
        self.lines.note(tick, self.known.count, value)
    }

    /// The lines.
    pub fn into_blob(self) -> Blob
        ensures { (g : Group) (m : ℕ) (key : List ℕ) (tick : ℕ) (J : List Record) → IsObserving g m key tick J self
            → result ≡ observed g m key J tick }
    {
        self.lines.into_blob()
    }
}
