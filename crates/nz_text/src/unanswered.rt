//! Which requests are open after some events.
ghost use Rattle.std.specs.Prelude.{◌≡◌, ◌++◌, List, IfOk, OnOk};
ghost use Rattle.std.specs.List.{list_any};
ghost use Rattle.std.specs.HashSet.{contains};
ghost use Rattle.nz_base.specs.Key.{id_eq};
ghost use Rattle.nz_base.specs.declared.key.Id.{Id as IdModel};
ghost use Rattle.nz_machine.specs.journals.EventNotes.{events_alone};
ghost use Rattle.nz_machine.specs.declared.client_event.ClientEvent.{ClientEvent as EventModel};
ghost use Rattle.nz_text.specs.Text.{accepts_it, open_in, unanswered_in};

use nz_base::{Id, IdList, NoMemory};
use nz_machine::{ClientEvent, EventAt};
use std::alloc::Global;
use std::collections::HashSet;

/// The requests that events accept an answer to.
fn accepted_in(alloc: Global, events: &[EventAt]) -> Result<HashSet<Id>, NoMemory>
    ensures { IfOk result (λ accepted. (id : IdModel) → contains id_eq accepted id ≡ list_any (accepts_it id) (events_alone events.now)) }
{
    let mut accepted = HashSet::new(alloc);
    for next in events {
        if let ClientEvent::Accepted { id, .. } = &next.event {
            accepted.insert(*id)?;
        }
    }
    Ok(accepted)
}

/// Adds the request that the event sent, where it is open.
fn add_if_open(
    accepted: &HashSet<Id>,
    event: &ClientEvent,
    ids: &mut IdList,
) -> Result<(), NoMemory>
    ensures { (E : List EventModel) → ((id : IdModel) → contains id_eq accepted.now id ≡ list_any (accepts_it id) E)
        → OnOk result (ids.new ≡ ids.old ++ open_in E event.now) }
{
    match event {
        ClientEvent::Sent { id, .. } => {
            if accepted.contains(id) {
                Ok(())
            } else {
                ids.push(*id)
            }
        }
        ClientEvent::Accepted { .. } => Ok(()),
    }
}

/// The requests without an acceptance, in the order in which they were sent.
pub fn unanswered_of(alloc: Global, events: &[EventAt]) -> Result<IdList, NoMemory>
    ensures { IfOk result (λ ids. ids ≡ unanswered_in (events_alone events.now)) }
{
    let accepted = accepted_in(alloc, events)?;
    let mut ids = IdList::new(alloc);
    for next in events {
        add_if_open(&accepted, &next.event, &mut ids)?;
    }
    Ok(ids)
}
