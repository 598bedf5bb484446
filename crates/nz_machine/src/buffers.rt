//! Taking an entry into the log, and what frames can carry of a crash vector.

ghost use Rattle.std.specs.Prelude.{◌≡◌, ◌<◌, length, IsTrue, IsFalse, OnOk};
ghost use Rattle.nz_base.specs.Key.{id_of};
ghost use Rattle.nz_base.specs.Log.{keys_of, has_id, is_above_last};
ghost use Rattle.nz_cv.specs.Vectors.{IsClusterSize};
ghost use Rattle.nz_store.specs.Sequence.{store_after};
ghost use Rattle.nz_msg.specs.Fields as fields;
ghost use Rattle.nz_machine.specs.rules.Replicas.{commands};
ghost use Rattle.nz_machine.specs.rules.Releases.{log_with_entry, results_with_entry};

use nz_base::{Entry, MAX_ENTRIES, NoMemory};
use nz_cv::CrashVector;
use nz_log::HashedLog;
use nz_store::{Answer, Store};

/// The entry goes to the log. The leader executes it, keeps its answer, and counts it as synced.
pub fn take_in(
    leads: bool,
    store: &mut Store,
    results: &mut Vec<Answer>,
    log: &mut HashedLog,
    entry: Entry,
) -> Result<(), NoMemory>
    requires above { IsTrue (is_above_last (keys_of log.old.entries) entry.key) }
    requires fresh { IsFalse (has_id (keys_of log.old.entries) (id_of entry.key)) }
    requires room { length log.old.entries < MAX_ENTRIES }
    requires store { IsTrue leads → store.old ≡ store_after (commands log.old.entries) }
    ensures log { OnOk result (log.new ≡ log_with_entry leads log.old entry) }
    ensures results { OnOk result (results.new.items ≡ results_with_entry leads results.old.items log.old.entries entry) }
    ensures store { OnOk result (IsTrue leads → store.new ≡ store_after (commands log.new.entries)) }
{
    if !leads {
        return log.append(entry);
    }
    match store.apply_bytes(entry.command.as_slice()) {
        Ok(answer) => results.push(answer)?,
        Err(_) => return Err(NoMemory),
    }
    log.append(entry)?;
    log.sync_all();
    Ok(())
}

/// That frames can carry this many counters.
fn counters_fit(counters: &[u32])
    requires { IsClusterSize (length counters.now) }
    ensures { fields.vector.fits counters.now }
{
    // Each counter has four bytes.
    let _count = counters.len();
}

/// That frames can carry a crash vector.
pub fn vector_fits(vector: &CrashVector)
    ensures { fields.vector.fits vector.now }
{
    // A vector has a counter for each replica of a cluster.
    let _size = vector.size();
    counters_fit(vector.as_slice());
}
