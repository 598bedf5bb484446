//! The request rule.

ghost use Rattle.std.specs.Prelude.{◌≡◌, ◌<◌, ◌++◌, map, length, nat_le, IsTrue, IsFalse, IfOk, OnOk, if◌then◌else◌};
ghost use Rattle.nz_base.specs.Actor.{HasAddress};
ghost use Rattle.nz_base.specs.Log.{keys_of, has_id};
ghost use Rattle.nz_base.specs.declared.actor.Actor.TheVariants as actors;
ghost use Rattle.nz_base.specs.declared.limits.TheConstants.{MAX_DEADLINE};
ghost use Rattle.nz_log.specs.Places.{last_entry};
ghost use Rattle.nz_msg.specs.Messages.{timed};
ghost use Rattle.nz_msg.specs.declared.message.Message.TheVariants.{Timed};
ghost use Rattle.nz_machine.specs.rules.Replicas as replicas;
ghost use Rattle.nz_machine.specs.rules.Requests as requests;
ghost use Rattle.nz_machine.specs.rules.Requests.{replies_at, after_restamp, after_placing, after_new_request};
ghost use Rattle.nz_machine.specs.rules.Does.{Does};
ghost use Rattle.nz_machine.specs.rules.Step.{parcel, replica_message};

use nz_base::{Actor, Entry, Id, Key, MAX_DEADLINE, NoMemory, TryCopy};
use nz_log::HashedLog;
use nz_machine::{Outbox, ReplicaState};
use nz_msg::TimedBody;
use std::alloc::Global;

fn key_with_deadline(deadline: u64, id: Id) -> Key
    ensures { result ≡ replicas.key_with_deadline deadline id }
{
    Key {
        deadline,
        client: id.client,
        num: id.num,
    }
}

fn entry_at(alloc: Global, deadline: u64, body: &TimedBody) -> Result<Entry, NoMemory>
    ensures { IfOk result (λ entry. entry ≡ requests.entry_at deadline body.now) }
{
    Ok(Entry {
        key: key_with_deadline(deadline, body.id),
        command: body.command.copy(alloc)?,
    })
}

/// The deadline after that of the log's last entry, if that is one.
fn next_deadline(log: &HashedLog) -> Option<u64>
    ensures { result ≡ (let deadline = requests.next_deadline (last_entry log.now.entries) in if nat_le deadline MAX_DEADLINE then Some deadline else None) }
{
    match log.last() {
        None => Some(1),
        Some(last) => {
            if last.key.deadline < MAX_DEADLINE {
                Some(last.key.deadline + 1)
            } else {
                None
            }
        }
    }
}

/// The leader stamps a late request anew.
fn restamp(state: &mut ReplicaState, body: &TimedBody) -> Result<(), NoMemory>
    requires fits { timed.fits body.now }
    requires logged { IsFalse (has_id (keys_of state.old.state.log.entries) body.now.id) }
    requires held { IsFalse (has_id (keys_of state.old.state.early) body.now.id) }
    ensures { OnOk result (state.new ≡ record state.old { state = after_restamp state.old.state body.now }) }
{
    match next_deadline(state.log()) {
        None => Ok(()),
        Some(deadline) => {
            let entry = entry_at(state.allocator(), deadline, body)?;
            state.keep_early(entry)
        }
    }
}

/// A request that is neither logged nor early waits for its deadline, or is late.
fn place_request(state: &mut ReplicaState, body: &TimedBody) -> Result<(), NoMemory>
    requires fits { timed.fits body.now }
    requires logged { IsFalse (has_id (keys_of state.old.state.log.entries) body.now.id) }
    requires held { IsFalse (has_id (keys_of state.old.state.early) body.now.id) }
    ensures { OnOk result (state.new ≡ record state.old { state = after_placing state.old.f state.old.me state.old.state body.now }) }
{
    let is_early = state
        .log()
        .is_above(&key_with_deadline(body.deadline, body.id));
    if !is_early && state.leads() {
        return restamp(state, body);
    }
    let entry = entry_at(state.allocator(), body.deadline, body)?;
    if is_early {
        state.keep_early(entry)
    } else {
        state.keep_late(entry)
    }
}

/// A request that is early already, or finds no room, changes nothing. Any other is placed.
fn take_new_request(state: &mut ReplicaState, body: &TimedBody) -> Result<(), NoMemory>
    requires fits { timed.fits body.now }
    requires logged { IsFalse (has_id (keys_of state.old.state.log.entries) body.now.id) }
    ensures { OnOk result (state.new ≡ record state.old { state = after_new_request state.old.f state.old.me state.old.state body.now }) }
{
    if state.early().find(body.id).is_some() || state.is_full() {
        return Ok(());
    }
    place_request(state, body)
}

/// Replies to a request whose entry is at this place in the log.
fn reply_at(state: &ReplicaState, id: Id, place: u32, sends: &mut Outbox) -> Result<(), NoMemory>
    requires { place < length state.now.state.log.entries }
    ensures { OnOk result (sends.new ≡ sends.old ++ map (parcel (actors.Replica state.now.me)) (replies_at state.now.f state.now.me state.now.state id place)) }
{
    if !state.leads() && place < state.log().synced() {
        state.reply_slowly(id, sends)
    } else {
        state.reply_fast(id, place, sends)
    }
}

/// What a replica does with a timed message, which it takes from proxies alone. In normal operation the origin is noted,
/// and the request is replied to or goes to a buffer.
#[tactic(auto, unfolding(nz_machine::specs::rules::Requests::request_rule))]
pub fn on_timed(
    state: &mut ReplicaState,
    from: Actor,
    body: &TimedBody,
    sends: &mut Outbox,
) -> Result<(), NoMemory>
    requires from { HasAddress from }
    requires fits { timed.fits body.now }
    ensures { let s = state.old in OnOk result (Does s state.new sends.old sends.new (replica_message s.f s.me s.state from (Timed body.now))) }
{
    let Actor::Proxy(proxy) = from else {
        return Ok(());
    };
    if !state.is_normal() {
        return Ok(());
    }
    state.note_origin(proxy, body)?;
    match state.log().place_of(body.id) {
        Some(place) => reply_at(state, body.id, place, sends),
        None => take_new_request(state, body),
    }
}
