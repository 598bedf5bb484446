//! How a follower takes a log modification.

ghost use Rattle.std.specs.Prelude.{◌≡◌, ◌<◌, ◌≤◌, ◌∷◌, ◌++◌, [], ◌&&◌, not, map, length, IsTrue, IsFalse, OnOk, nat_lt};
ghost use Rattle.std.specs.List.{AllByRecursion};
ghost use Rattle.nz_base.specs.declared.actor.Actor.TheVariants as actors;
ghost use Rattle.nz_base.specs.declared.limits.TheConstants.{MAX_KEYS, MAX_REPLICA};
ghost use Rattle.nz_msg.specs.Fields as fields;
ghost use Rattle.nz_msg.specs.Messages.{log_mod};
ghost use Rattle.nz_msg.specs.declared.message.Message.TheVariants.{LogMod};
ghost use Rattle.nz_machine.specs.rules.Replicas.{is_normal, leads, hears_leader};
ghost use Rattle.nz_machine.specs.rules.Views.{enter_view};
ghost use Rattle.nz_machine.specs.rules.Vectors.{unless_stray};
ghost use Rattle.nz_machine.specs.rules.LogMods as log_mods;
ghost use Rattle.nz_machine.specs.rules.LogMods.{replies_since, fetch_from, sync_report_to, after_log_mod, after_hearing};
ghost use Rattle.nz_machine.specs.rules.Does.{Does, IsFromMember};
ghost use Rattle.nz_machine.specs.rules.Step.{parcel, replica_message};

use nz_base::{Actor, IdList, NoMemory};
use nz_machine::{Outbox, ReplicaState};
use nz_msg::{FetchBody, LogModBody, Message, SyncReportBody};

/// Reports to the leader how much of the log agrees with its own.
fn send_sync_report(state: &ReplicaState, leader: u8, sends: &mut Outbox) -> Result<(), NoMemory>
    requires { leader ≤ MAX_REPLICA }
    ensures { OnOk result (sends.new ≡ sends.old ++ map (parcel (actors.Replica state.now.me)) (sync_report_to leader state.now.state ∷ [])) }
{
    let message = Message::SyncReport(SyncReportBody {
        view: state.view(),
        synced: state.log().synced(),
    });
    let to = Actor::Replica(leader);
    sends.send(state.actor(), to, &message)
}

/// Asks the leader for the entries with these ids, if there are any.
fn send_fetch(
    state: &ReplicaState,
    leader: u8,
    ids: IdList,
    sends: &mut Outbox,
) -> Result<(), NoMemory>
    requires leader { leader ≤ MAX_REPLICA }
    requires few { length ids ≤ MAX_KEYS }
    requires fit { AllByRecursion fields.id.fits ids }
    ensures { OnOk result (sends.new ≡ sends.old ++ map (parcel (actors.Replica state.now.me)) (fetch_from leader state.now.state ids)) }
{
    if ids.is_empty() {
        return Ok(());
    }
    let message = Message::Fetch(FetchBody {
        view: state.view(),
        ids,
    });
    let to = Actor::Replica(leader);
    sends.send(state.actor(), to, &message)
}

/// Sends the slow replies for the entries that are synced since a count.
fn reply_since(state: &ReplicaState, count: u32, sends: &mut Outbox) -> Result<(), NoMemory>
    ensures { OnOk result (sends.new ≡ sends.old ++ map (parcel (actors.Replica state.now.me)) (replies_since state.now.state count)) }
{
    state.show_invariant();
    for place in count..state.log().synced() {
        state.reply_slowly(state.log().get(place).key.id(), sends)?;
    }
    Ok(())
}

/// Takes the keys of a log modification that starts at most at the first place that is not synced.
fn take_keys(
    state: &mut ReplicaState,
    leader: u8,
    body: &LogModBody,
    sends: &mut Outbox,
) -> Result<(), NoMemory>
    requires leader { leader ≤ MAX_REPLICA }
    requires normal { IsTrue (is_normal state.old.state.status) }
    requires follows { IsFalse (leads state.old.f state.old.me state.old.state) }
    requires fits { log_mod.fits body.now }
    requires within { IsFalse (nat_lt state.old.state.log.synced body.now.start) }
    ensures { let s = state.old in OnOk result (Does s state.new sends.old sends.new (after_log_mod leader body.now s.state)) }
{
    let synced = state.log().synced();
    let skipped = (synced - body.start).min(body.keys.len());
    let missing = state.sync(&body.keys.as_slice()[skipped as usize..], body.commit)?;
    reply_since(state, synced, sends)?;
    send_fetch(state, leader, missing, sends)?;
    send_sync_report(state, leader, sends)
}

/// What follows once the vector of a log modification was taken in.
fn take_log_mod(
    state: &mut ReplicaState,
    leader: u8,
    body: &LogModBody,
    sends: &mut Outbox,
) -> Result<(), NoMemory>
    requires leader { leader ≤ MAX_REPLICA }
    requires normal { IsTrue (is_normal state.old.state.status) }
    requires follows { IsFalse (leads state.old.f state.old.me state.old.state) }
    requires fits { log_mod.fits body.now }
    ensures { let s = state.old in OnOk result (Does s state.new sends.old sends.new (after_log_mod leader body.now s.state)) }
{
    if state.log().synced() < body.start {
        return send_sync_report(state, leader, sends);
    }
    take_keys(state, leader, body, sends)
}

/// Whether the leader of a later view is heard.
fn hears_later_leader(state: &ReplicaState, view: u64, sender: u8) -> bool
    ensures { result ≡ log_mods.hears_later_leader state.now.f state.now.state view sender }
{
    state.is_up() && state.view() < view && state.is_leader_of(view, sender)
}

/// A log modification of a later view is a reason to enter it.
fn enter_unless_stray(
    state: &mut ReplicaState,
    sender: u8,
    body: &LogModBody,
    sends: &mut Outbox,
) -> Result<(), NoMemory>
    requires from { IsFromMember state.old (actors.Replica sender) body.now.vector }
    requires fits { log_mod.fits body.now }
    requires later { IsTrue (log_mods.hears_later_leader state.old.f state.old.state body.now.view sender) }
    ensures { let s = state.old in
        OnOk result (Does s state.new sends.old sends.new
        (unless_stray s.me s.state sender body.now.vector (enter_view s.f s.me body.now.view))) }
{
    if !state.merge_unless_stray(sender, &body.vector) {
        return Ok(());
    }
    state.enter_view(body.view, sends)
}

/// A log modification of the leader is taken.
fn follow_unless_stray(
    state: &mut ReplicaState,
    sender: u8,
    body: &LogModBody,
    sends: &mut Outbox,
) -> Result<(), NoMemory>
    requires from { IsFromMember state.old (actors.Replica sender) body.now.vector }
    requires fits { log_mod.fits body.now }
    requires follows { IsTrue (hears_leader state.old.f state.old.me state.old.state body.now.view sender) }
    ensures { let s = state.old in
        OnOk result (Does s state.new sends.old sends.new
        (unless_stray s.me s.state sender body.now.vector (λ t. after_log_mod sender body.now (after_hearing t)))) }
{
    if !state.merge_unless_stray(sender, &body.vector) {
        return Ok(());
    }
    state.hear_leader();
    take_log_mod(state, sender, body, sends)
}

/// What a replica does with a log modification, which it takes from replicas alone. One of a later view is a reason to
/// enter it. One of the own view is taken.
#[tactic(auto, unfolding(nz_machine::specs::rules::LogMods::log_mod_rule))]
pub fn on_log_mod(
    state: &mut ReplicaState,
    from: Actor,
    body: &LogModBody,
    sends: &mut Outbox,
) -> Result<(), NoMemory>
    requires from { IsFromMember state.old from body.now.vector }
    requires fits { log_mod.fits body.now }
    ensures { let s = state.old in OnOk result (Does s state.new sends.old sends.new (replica_message s.f s.me s.state from (LogMod body.now))) }
{
    let Actor::Replica(sender) = from else {
        return Ok(());
    };
    if hears_later_leader(state, body.view, sender) {
        return enter_unless_stray(state, sender, body, sends);
    }
    if state.hears_leader(body.view, sender) {
        return follow_unless_stray(state, sender, body, sends);
    }
    Ok(())
}
