//! Entries that a follower misses, and the leader's reply with them.

ghost use Rattle.std.specs.Prelude.{◌≡◌, ◌<◌, ◌≤◌, ◌++◌, [], map, length, filter, IfOk, OnOk};
ghost use Rattle.std.specs.List.{AllByRecursion};
ghost use Rattle.nz_base.specs.Actor.{HasAddress};
ghost use Rattle.nz_base.specs.declared.actor.Actor.TheVariants as actors;
ghost use Rattle.nz_base.specs.declared.limits.TheConstants.{MAX_KEYS};
ghost use Rattle.nz_msg.specs.Fields as fields;
ghost use Rattle.nz_msg.specs.Messages.{fetch, fetch_reply};
ghost use Rattle.nz_msg.specs.declared.message.Message.TheVariants.{Fetch, FetchReply};
ghost use Rattle.nz_machine.specs.rules.Facts.{FitsEntry};
ghost use Rattle.nz_machine.specs.rules.LogMods as log_mods;
ghost use Rattle.nz_machine.specs.rules.LogMods.{with_late_entry, with_late_entries};
ghost use Rattle.nz_machine.specs.rules.Does.{Does, DoesSilently};
ghost use Rattle.nz_machine.specs.rules.Step.{parcel, replica_message};

use nz_base::{Actor, Entry, EntryList, Id, NoMemory, TryCopy};
use nz_machine::{Outbox, ReplicaState};
use nz_msg::{FetchBody, FetchReplyBody, Message};

fn is_asked(ids: &[Id], entry: &Entry) -> bool
    ensures { result ≡ log_mods.is_asked ids.now entry.now }
{
    for id in ids {
        if *id == entry.key.id() {
            return true;
        }
    }
    false
}

/// Copies of the log's entries with these ids.
fn asked_entries(state: &ReplicaState, ids: &[Id]) -> Result<EntryList, NoMemory>
    requires { length ids.now ≤ MAX_KEYS }
    ensures value { IfOk result (λ list. list ≡ filter (log_mods.is_asked ids.now) state.now.state.log.entries) }
    ensures fits { IfOk result (fields.entries 0 MAX_KEYS).fits }
{
    state.show_invariant();
    let alloc = state.allocator();
    let mut entries = EntryList::new(alloc);
    for place in 0..state.log().len() {
        let entry = state.log().get(place);
        if is_asked(ids, entry) {
            entries.push(entry.copy(alloc)?)?;
        }
    }
    Ok(entries)
}

/// What a replica does with a fetch, which it takes from replicas alone. It changes nothing: the leader replies with the
/// asked entries that its log has.
#[tactic(auto, unfolding(nz_machine::specs::rules::LogMods::fetch_rule))]
pub fn on_fetch(
    state: &ReplicaState,
    from: Actor,
    body: &FetchBody,
    sends: &mut Outbox,
) -> Result<(), NoMemory>
    requires from { HasAddress from }
    requires fits { fetch.fits body.now }
    ensures { let s = state.now in OnOk result (Does s s sends.old sends.new (replica_message s.f s.me s.state from (Fetch body.now))) }
{
    let Actor::Replica(sender) = from else {
        return Ok(());
    };
    if !state.leads_view() || body.view != state.view() {
        return Ok(());
    }
    let message = Message::FetchReply(FetchReplyBody {
        view: state.view(),
        entries: asked_entries(state, body.ids.as_slice())?,
    });
    let to = Actor::Replica(sender);
    sends.send(state.actor(), to, &message)
}

/// Keeps a fetched entry where its id is held nowhere and there is room.
fn keep_late_entry(state: &mut ReplicaState, entry: &Entry) -> Result<(), NoMemory>
    requires { FitsEntry entry.now }
    ensures { OnOk result (state.new ≡ record state.old { state = with_late_entry state.old.state entry.now }) }
{
    if state.holds(entry.key.id()) || state.is_full() {
        return Ok(());
    }
    let entry = entry.copy(state.allocator())?;
    state.keep_late(entry)
}

/// Keeps each of the entries in turn.
fn keep_late_entries(state: &mut ReplicaState, entries: &[Entry]) -> Result<(), NoMemory>
    requires { AllByRecursion FitsEntry entries.now }
    ensures { OnOk result (state.new ≡ record state.old { state = with_late_entries state.old.state entries.now }) }
{
    for entry in entries {
        keep_late_entry(state, entry)?;
    }
    Ok(())
}

/// What a replica does with a fetch reply, which it takes from replicas alone. It sends nothing: a follower keeps in late
/// what its leader sends.
#[tactic(auto, unfolding(nz_machine::specs::rules::LogMods::fetch_reply_rule))]
pub fn on_fetch_reply(
    state: &mut ReplicaState,
    from: Actor,
    body: &FetchReplyBody,
) -> Result<(), NoMemory>
    requires { fetch_reply.fits body.now }
    ensures { let s = state.old in OnOk result (DoesSilently s state.new (replica_message s.f s.me s.state from (FetchReply body.now))) }
{
    let Actor::Replica(sender) = from else {
        return Ok(());
    };
    if !state.hears_leader(body.view, sender) {
        return Ok(());
    }
    keep_late_entries(state, body.entries.as_slice())
}
