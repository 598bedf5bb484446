//! How many ticks the requests of a run took.
ghost use Rattle.std.specs.Prelude.{◌≡◌, ◌++◌, ℕ, List as Listed, map, IfOk, OnOk};
ghost use Rattle.std.specs.HashMap.{get};
ghost use Rattle.nz_base.specs.Key.{id_eq};
ghost use Rattle.nz_base.specs.declared.key.Id.{Id as IdModel};
ghost use Rattle.nz_machine.specs.rules.State.{Group};
ghost use Rattle.nz_machine.specs.journals.EventNotes.{events_at};
ghost use Rattle.nz_machine.specs.declared.event.Record.{Record};
ghost use Rattle.nz_quiet.specs.Quiet.{timed_events};
ghost use Rattle.nz_quiet.specs.Pace as pace;
ghost use Rattle.nz_quiet.specs.Pace.{timed, tick_accepted, pace_by, accepted_in, requests_sent, requests_accepted, sent_in};

use nz_base::{Id, List, NoMemory};
use nz_machine::{ClientEvent, EventAt};
use std::alloc::Global;
use std::collections::HashMap;

/// The ticks in which answers to requests were accepted.
type Accepted = HashMap<Id, u32>;

/// Notes the tick of the event, if it is an acceptance.
fn note(next: &EventAt, accepted: &mut Accepted) -> Result<(), NoMemory>
    ensures { OnOk result ((A : Listed (IdModel × ℕ)) → ((id : IdModel) → get id_eq accepted.old id ≡ tick_accepted A id)
        → (id : IdModel) → get id_eq accepted.new id ≡ tick_accepted (A ++ accepted_in next.now.tick next.now.event) id) }
{
    if let ClientEvent::Accepted { id, .. } = &next.event {
        accepted.insert(*id, next.tick)?;
    }
    Ok(())
}

/// The ticks of the acceptances.
fn accepted_of(alloc: Global, events: &[EventAt]) -> Result<Accepted, NoMemory>
    ensures { IfOk result (λ accepted. (id : IdModel) → get id_eq accepted id ≡ tick_accepted (requests_accepted (timed events.now)) id) }
{
    let mut accepted = HashMap::new(alloc);
    for next in events {
        note(next, &mut accepted)?;
    }
    Ok(accepted)
}

/// How many ticks the request took that was sent in this tick, unless it is open.
fn pace_of(accepted: &Accepted, id: Id, tick: u32) -> Option<u32>
    ensures { result ≡ pace_by (get id_eq accepted.now) (id, tick) }
{
    match accepted.get(&id) {
        Some(end) => Some(end.saturating_sub(tick)),
        None => None,
    }
}

/// Adds how many ticks the request took that the event sends, if it sends one.
fn add_pace(
    accepted: &Accepted,
    next: &EventAt,
    paces: &mut List<Option<u32>>,
) -> Result<(), NoMemory>
    ensures { OnOk result (paces.new ≡ paces.old ++ map (pace_by (get id_eq accepted.now)) (sent_in next.now.tick next.now.event)) }
{
    match &next.event {
        ClientEvent::Sent { id, .. } => paces.push(pace_of(accepted, *id, next.tick)),
        ClientEvent::Accepted { .. } => Ok(()),
    }
}

/// How many ticks each request took that was sent, in the order of sending.
fn paces_of(
    alloc: Global,
    events: &[EventAt],
    accepted: &Accepted,
) -> Result<List<Option<u32>>, NoMemory>
    ensures { IfOk result (λ paces. paces ≡ map (pace_by (get id_eq accepted.now)) (requests_sent (timed events.now))) }
{
    let mut paces = List::new(alloc);
    for next in events {
        add_pace(accepted, next, &mut paces)?;
    }
    Ok(paces)
}

/// How many ticks each request of the run with these events took, in the order of sending. Those that are open have no
/// number.
pub fn paces(alloc: Global, events: &[EventAt]) -> Result<List<Option<u32>>, NoMemory>
    ensures { IfOk result (λ paces. (g : Group) (J : Listed Record) → events.now ≡ events_at g J → paces ≡ pace.paces (timed_events g J)) }
{
    let accepted = accepted_of(alloc, events)?;
    paces_of(alloc, events, &accepted)
}
