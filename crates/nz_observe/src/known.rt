//! A store that has executed what a replica knew to be committed.

ghost use Rattle.std.specs.Prelude.{◌≡◌, ◌≤◌, nat_lt, [], length, take, if◌then◌else◌, OnOk};
ghost use Rattle.nz_store.specs.Sequence.{store_after};
ghost use Rattle.nz_machine.specs.rules.Replicas.{commands};
ghost use Rattle.nz_observe.specs.Following.{executed, HasExecuted};

use nz_base::NoMemory;
use nz_log::HashedLog;
use nz_store::Store;
use std::alloc::Global;

/// A store that has executed the entries that a replica knew to be committed, and how many these are.
#[derive(Drop)]
pub struct Known {
    pub store: Store,
    pub count: u32,
}

impl Known {
    #[tactic(auto, unfolding(nz_store::specs::Sequence::store_from))]
    pub fn nothing(alloc: Global) -> Known
        ensures { result ≡ executed [] }
    {
        Known {
            store: Store::new(alloc),
            count: 0,
        }
    }

    /// Forgets what was executed, if these are more entries than so many.
    fn forget_more(&mut self, alloc: Global, commit: u32)
        ensures { self.new ≡ (if nat_lt commit self.old.count then executed [] else self.old) }
    {
        if commit < self.count {
            *self = Known::nothing(alloc);
        }
    }

    /// Executes the entries that are committed now, and were not before. If fewer are known now, as after a crash, it begins
    /// anew.
    pub fn execute_to(
        &mut self,
        alloc: Global,
        log: &HashedLog,
        commit: u32,
    ) -> Result<(), NoMemory>
        requires { commit ≤ length log.now.entries }
        ensures { let entries = take commit log.now.entries in OnOk result (HasExecuted entries self.old → self.new ≡ executed entries) }
    {
        self.forget_more(alloc, commit);
        execute(&mut self.store, log, self.count, commit)?;
        self.count = commit;
        Ok(())
    }
}

/// Executes the entries of the log from the first place to before the second.
fn execute(store: &mut Store, log: &HashedLog, from: u32, to: u32) -> Result<(), NoMemory>
    requires { to ≤ length log.now.entries }
    ensures { OnOk result (from ≤ to → store.old ≡ store_after (commands (take from log.now.entries))
        → store.new ≡ store_after (commands (take to log.now.entries))) }
{
    for place in from..to {
        let Ok(_) = store.apply_bytes(log.get(place).command.as_slice()) else {
            return Err(NoMemory);
        };
    }
    Ok(())
}
