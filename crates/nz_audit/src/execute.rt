//! What one store answers to a prefix of a log.

ghost use Rattle.std.specs.Prelude.{◌≡◌, ◌≤◌, length, take, IfOk};
ghost use Rattle.nz_machine.specs.journals.Journals.{executed_entries};

use nz_base::{NoMemory, TryCopy};
use nz_log::HashedLog;
use nz_machine::{Executed, History};
use nz_store::Store;
use std::alloc::Global;

/// This many entries of the log, executed from an empty store on.
pub fn execute(alloc: Global, log: &HashedLog, count: u32) -> Result<History, NoMemory>
    requires { count ≤ length log.now.entries }
    ensures { IfOk result (λ history. history ≡ executed_entries (take count log.now.entries)) }
{
    let mut store = Store::new(alloc);
    let mut history = History::new(alloc);
    for place in 0..count {
        let entry = log.get(place);
        let Ok(answer) = store.apply_bytes(entry.command.as_slice()) else {
            return Err(NoMemory);
        };
        history.push(Executed {
            id: entry.key.id(),
            command: entry.command.copy(alloc)?,
            answer,
        })?;
    }
    Ok(history)
}
