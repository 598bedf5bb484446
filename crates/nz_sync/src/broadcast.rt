//! What the leader sends the other replicas of its log.

ghost use Rattle.std.specs.Prelude.{◌≡◌, ◌<◌, ◌≤◌, ◌==◌, ◌∷◌, ◌++◌, [], map, take, drop, if◌then◌else◌, IfOk, OnOk};
ghost use Rattle.nz_base.specs.Cluster.{replica_count};
ghost use Rattle.nz_base.specs.Log.{keys_of};
ghost use Rattle.nz_base.specs.declared.actor.Actor.TheVariants as actors;
ghost use Rattle.nz_msg.specs.Fields as fields;
ghost use Rattle.nz_msg.specs.Messages.{Fits};
ghost use Rattle.nz_msg.specs.declared.message.Message.TheVariants as messages;
ghost use Rattle.nz_machine.specs.rules.LogMods.{log_mod_from, log_mod_to, log_mods_to_others};
ghost use Rattle.nz_machine.specs.rules.Step.{parcel};
ghost use Rattle.nz_sync.specs.Broadcasts.{IsWritten};

use bytes::Bytes;
use nz_base::{Actor, KeyList, MAX_KEYS, NoMemory};
use nz_machine::{Outbox, ReplicaState};
use nz_msg::{LogModBody, Message};

/// The first keys of the log from a place on.
fn keys_from(state: &ReplicaState, start: u32) -> Result<KeyList, NoMemory>
    ensures value { IfOk result (λ keys. keys ≡ take MAX_KEYS (drop start (keys_of state.now.state.log.entries))) }
    ensures fits { IfOk result fields.keys.fits }
{
    state.show_invariant();
    let end = state
        .log()
        .len()
        .min(start.saturating_add(u32::from(MAX_KEYS)));
    let mut keys = KeyList::new(state.allocator());
    for place in start..end {
        keys.push(state.log().get(place).key)?;
    }
    Ok(keys)
}

/// The keys of the log, for those whose logs agree with it up to a place.
fn log_mod(state: &ReplicaState, start: u32) -> Result<Message, NoMemory>
    ensures value { IfOk result (λ message. message ≡ messages.LogMod (log_mod_from state.now.state start)) }
    ensures fits { IfOk result Fits }
{
    Ok(Message::LogMod(LogModBody {
        view: state.view(),
        vector: *state.vector(),
        commit: state.commit(),
        start,
        keys: keys_from(state, start)?,
    }))
}

/// A log-mod from a place, and its body, which the parcels to all who have reported this place have in common.
#[derive(Drop)]
struct Written {
    start: u32,
    message: Message,
    body: Bytes,
}

/// Writes the log-mod from a place.
fn write(state: &ReplicaState, start: u32, sends: &mut Outbox) -> Result<Written, NoMemory>
    ensures written { IfOk result (IsWritten state.now.state) }
    ensures start { IfOk result (λ written. written.start ≡ start) }
    ensures same { sends.new ≡ sends.old }
{
    let message = log_mod(state, start)?;
    let body = sends.write_body(&message)?;
    Ok(Written {
        start,
        message,
        body,
    })
}

/// Writes it anew where the place is another.
fn move_to(
    state: &ReplicaState,
    start: u32,
    written: &mut Written,
    sends: &mut Outbox,
) -> Result<(), NoMemory>
    requires { IsWritten state.now.state written.old }
    ensures written { OnOk result (IsWritten state.now.state written.new) }
    ensures start { OnOk result (written.new.start ≡ start) }
    ensures same { sends.new ≡ sends.old }
{
    if written.start == start {
        return Ok(());
    }
    *written = write(state, start, sends)?;
    Ok(())
}

/// Sends a replica the keys of the log, from where its own agrees.
fn send_log_mod(
    state: &ReplicaState,
    replica: u8,
    written: &mut Written,
    sends: &mut Outbox,
) -> Result<(), NoMemory>
    requires replica { replica < replica_count state.now.f }
    requires written { IsWritten state.now.state written.old }
    ensures sent { OnOk result (sends.new ≡ sends.old ++ map (parcel (actors.Replica state.now.me)) (log_mod_to state.now.state replica ∷ [])) }
    ensures written { OnOk result (IsWritten state.now.state written.new) }
{
    // f is at most MAX_F, so the number is at most MAX_REPLICA.
    let _most = state.cluster().f();
    move_to(state, state.ack_of(replica), written, sends)?;
    let to = Actor::Replica(replica);
    sends.send_written(state.actor(), to, &written.message, &written.body)
}

/// The least number of another replica.
fn first_other(me: u8) -> u8
    ensures value { result ≡ if me == 0 then 1 else 0 }
    ensures low { result ≤ 1 }
{
    if me == 0 { 1 } else { 0 }
}

/// Sends each of the others the keys of the log, from where its own agrees.
fn send_to_others(
    state: &ReplicaState,
    written: &mut Written,
    sends: &mut Outbox,
) -> Result<(), NoMemory>
    requires { IsWritten state.now.state written.old }
    ensures { OnOk result (sends.new ≡ sends.old ++ map (parcel (actors.Replica state.now.me)) (log_mods_to_others state.now.f state.now.me state.now.state)) }
{
    for replica in 0..state.cluster().n() {
        if !Actor::Replica(replica).is(&state.actor()) {
            send_log_mod(state, replica, written, sends)?;
        }
    }
    Ok(())
}

/// At a tick the leader in normal operation sends each of the others what its log has. Mostly all of them have reported
/// the same place, so that one body serves them.
pub fn send_log_mods(state: &ReplicaState, sends: &mut Outbox) -> Result<(), NoMemory>
    ensures { OnOk result (sends.new ≡ sends.old ++ map (parcel (actors.Replica state.now.me)) (log_mods_to_others state.now.f state.now.me state.now.state)) }
{
    // f is at least 1, so there is another replica.
    let _least = state.cluster().f();
    let start = state.ack_of(first_other(state.me()));
    let mut written = write(state, start, sends)?;
    send_to_others(state, &mut written, sends)
}
