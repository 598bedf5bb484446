//! The answers that the clients of a run accept.

ghost use Rattle.std.specs.Prelude.{◌≡◌, ◌+◌, IfOk};
ghost use Rattle.nz_machine.specs.journals.EventNotes.{events_at};
ghost use Rattle.nz_machine.specs.journals.Journals.{group_in, run_in};
ghost use Rattle.nz_machine.specs.runs.World.{World};
ghost use Rattle.nz_machine.specs.declared.journal.Journal.{Journal as JournalModel};
ghost use Rattle.nz_audit.specs.Prefixes.{AreAccepted};

use crate::accepted::answers::AcceptedAt;
use nz_base::NoMemory;
use nz_machine::{ClientEvent, EventAt};
use std::alloc::Global;

/// One more. From 2^32 on the answer is `NoMemory`.
fn one_more(count: u32) -> Result<u32, NoMemory>
    ensures { IfOk result (λ n. n ≡ count + 1) }
{
    match count.checked_add(1) {
        Some(more) => Ok(more),
        None => Err(NoMemory),
    }
}

/// The answers that were accepted in the run with these events.
pub fn accepted_in(alloc: Global, events: &[EventAt]) -> Result<Vec<AcceptedAt>, NoMemory>
    ensures { IfOk result (λ accepted. (journal : JournalModel) → World (group_in journal) (run_in journal)
        → events.now ≡ events_at (group_in journal) (run_in journal) → AreAccepted journal (run_in journal) accepted.items) }
{
    let mut accepted = Vec::new(alloc);
    let mut sent = 0;
    for next in events {
        match &next.event {
            ClientEvent::Sent { .. } => sent = one_more(sent)?,
            ClientEvent::Accepted { id, .. } => accepted.push(AcceptedAt {
                place: next.place,
                id: *id,
                sent,
            })?,
        }
    }
    Ok(accepted)
}
