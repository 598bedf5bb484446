//! Which parcels are about wanted requests. Most others are known by a field of their frame, and not decoded.

ghost use Rattle.std.specs.Prelude.{◌≡◌, ℕ, Bool, true, Option, Some, IfOk, IsTrue};
ghost use Rattle.std.specs.HashSet.{contains};
ghost use Rattle.nz_base.specs.Key.{id_eq};
ghost use Rattle.nz_base.specs.declared.key.Id.{Id as IdModel};
ghost use Rattle.nz_machine.specs.runs.Events.{id_at};
ghost use Rattle.nz_audit.specs.Sources as sources;
ghost use Rattle.nz_audit.specs.Sources.{about_message, if_wanted};
ghost use Rattle.nz_audit.specs.Noting.{after_event, down_after};
ghost use Rattle.nz_audit.specs.declared.sources.notes.Noted.{Noted as NotedModel};
ghost use Rattle.nz_audit.specs.declared.accepted.answers.Source.{Source as SourceModel};

use crate::sources::fields::{named_id, named_num, shows_answer};
use nz_base::{Actor, Id, NoMemory};
use nz_machine::{Event, Parcel, heard};
use nz_msg::{Envelope, Message};
use std::alloc::Global;
use std::collections::HashSet;

fn id_of(client: u8, num: u32) -> Id
    ensures { result ≡ id_at client num }
{
    Id {
        client: u32::from(client),
        num,
    }
}

fn about_in(envelope: &Envelope) -> Option<Id>
    ensures { result ≡ about_message envelope.now.from envelope.now.to envelope.now.message }
{
    match (envelope.from, envelope.to, &envelope.message) {
        (Actor::Replica(_), Actor::Proxy(_), Message::FastReply(body)) => {
            if body.answer.is_some() {
                Some(body.id)
            } else {
                None
            }
        }
        (Actor::Proxy(_), Actor::Client(client), Message::Answer(body)) => {
            Some(id_of(client, body.num))
        }
        _ => None,
    }
}

/// The request that the parcel is about by its frame, if it is about one: a reply with an answer, or an answer.
fn shown_id(parcel: &Parcel) -> Option<Id>
    ensures { (id : IdModel) → sources.about parcel.now ≡ Some id → result ≡ Some id }
{
    let frame = &parcel.frame;
    match (parcel.from, parcel.to) {
        (Actor::Replica(_), Actor::Proxy(_)) => {
            if shows_answer(frame) {
                named_id(frame)
            } else {
                None
            }
        }
        (Actor::Proxy(_), Actor::Client(client)) => Some(id_of(client, named_num(frame)?)),
        _ => None,
    }
}

/// The request that the parcel is about, where it stands for a source.
fn decoded_id(alloc: Global, parcel: &Parcel) -> Result<Option<Id>, NoMemory>
    ensures { IfOk result (λ id. id ≡ sources.about parcel.now) }
{
    match heard(alloc, parcel.to, parcel)? {
        Some(envelope) => Ok(about_in(&envelope)),
        None => Ok(None),
    }
}

/// The same, where the request is wanted.
pub fn about(alloc: Global, wanted: &HashSet<Id>, parcel: &Parcel) -> Result<Option<Id>, NoMemory>
    ensures { IfOk result (λ id. id ≡ if_wanted (contains id_eq wanted.now) (sources.about parcel.now)) }
{
    let Some(shown) = shown_id(parcel) else {
        return Ok(None);
    };
    if !wanted.contains(&shown) {
        return Ok(None);
    }
    decoded_id(alloc, parcel)
}

/// Whether the event delivers a request that is not wanted. It changes nothing of what a proxy knows of the wanted ones.
pub fn is_other_request(wanted: &HashSet<Id>, event: &Event) -> bool
    ensures down { IsTrue result → (down : Bool) → down_after event.now down ≡ down }
    ensures known { IsTrue result → (id : IdModel) → contains id_eq wanted.now id ≡ true
        → (f me : ℕ) (source : Option SourceModel) (silent down : Bool) (known : Option NotedModel)
        → after_event f me source silent down id event.now known ≡ known }
{
    let Event::Deliver(parcel) = event else {
        return false;
    };
    let parcel = parcel.get();
    let Actor::Client(client) = parcel.from else {
        return false;
    };
    match named_num(&parcel.frame) {
        Some(num) => !wanted.contains(&id_of(client, num)),
        None => false,
    }
}
