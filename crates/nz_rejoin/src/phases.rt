//! The three phases of a rejoin: vectors, views, and the log.

ghost use Rattle.std.specs.Prelude.{◌≡◌, ◌<◌, ◌≤◌, ◌==◌, ◌&&◌, [], nat_le, length, IsFalse, OnOk};
ghost use Rattle.nz_base.specs.Cluster.{leader_of};
ghost use Rattle.nz_base.specs.declared.actor.Actor.TheVariants as actors;
ghost use Rattle.nz_base.specs.declared.limits.TheConstants.{MAX_VIEW};
ghost use Rattle.nz_msg.specs.Messages.{vector_tell, rejoin_tell, state_tell};
ghost use Rattle.nz_msg.specs.declared.message.Message.TheVariants.{VectorTell, RejoinTell, StateTell};
ghost use Rattle.nz_machine.specs.declared.data.Phase.TheVariants as phases;
ghost use Rattle.nz_machine.specs.rules.Adopting.{normal_in};
ghost use Rattle.nz_machine.specs.rules.Rejoining as rejoining;
ghost use Rattle.nz_machine.specs.rules.Rejoining.{awaits};
ghost use Rattle.nz_machine.specs.rules.Does.{Does, DoesSilently, IsFromMember, IsFromOther};
ghost use Rattle.nz_machine.specs.rules.Step.{replica_message};

use nz_base::{Actor, EntryList, NoMemory};
use nz_machine::{Outbox, Phase, ReplicaState};
use nz_msg::{RejoinTellBody, StateTellBody, VectorTellBody};
use std::mem;

// ---- the first phase: vectors

/// The second phase starts with nothing collected: the others are asked for their views.
pub(super) fn ask_views(state: &mut ReplicaState, sends: &mut Outbox) -> Result<(), NoMemory>
    ensures { let s = state.old in OnOk result (Does s state.new sends.old sends.new (rejoining.ask_views s.f s.me s.state)) }
{
    state.start_views();
    state.send_to_others(&state.rejoin_ask(), sends)
}

/// With enough tellers the second phase starts, unless there is no greater counter.
fn after_vectors(
    state: &mut ReplicaState,
    tellers: usize,
    sends: &mut Outbox,
) -> Result<(), NoMemory>
    requires { tellers ≡ length state.old.state.rejoin.tellers }
    ensures { let s = state.old in OnOk result (Does s state.new sends.old sends.new (rejoining.after_vectors s.f s.me s.state)) }
{
    if tellers >= usize::from(state.cluster().slow()) && state.take_new_counter() {
        return ask_views(state, sends);
    }
    Ok(())
}

/// What a replica does with a vector-tell, which it takes from replicas alone. A vector is taken in the first phase, for
/// this restart.
#[tactic(auto, unfolding(nz_machine::specs::rules::Rejoining::vector_tell_rule))]
pub fn on_vector_tell(
    state: &mut ReplicaState,
    from: Actor,
    body: &VectorTellBody,
    sends: &mut Outbox,
) -> Result<(), NoMemory>
    requires from { IsFromMember state.old from body.now.vector }
    requires fits { vector_tell.fits body.now }
    ensures { let s = state.old in OnOk result (Does s state.new sends.old sends.new (replica_message s.f s.me s.state from (VectorTell body.now))) }
{
    let Actor::Replica(sender) = from else {
        return Ok(());
    };
    if !state.awaits(Phase::Vectors, body.nonce)
        || !state.merge_unless_stray(sender, &body.vector)
    {
        return Ok(());
    }
    let tellers = state.note_teller(sender, &body.vector)?;
    after_vectors(state, tellers, sends)
}

// ---- the second phase: views

/// The third phase: the leader of the view is asked for its log.
fn ask_log(state: &mut ReplicaState, view: u64, sends: &mut Outbox) -> Result<(), NoMemory>
    requires { view ≤ MAX_VIEW }
    ensures { let s = state.old in OnOk result (Does s state.new sends.old sends.new (rejoining.ask_log s.f s.state view)) }
{
    // f is at most MAX_F, so the number is at most MAX_REPLICA.
    let _most = state.cluster().f();
    let leader = state.cluster().leader(view);
    state.start_log(view);
    state.send_to(leader, &state.state_ask(), sends)
}

/// With enough views the third phase starts. A replica that led the latest one itself waits until there is a later.
fn after_views(state: &mut ReplicaState, tells: usize, sends: &mut Outbox) -> Result<(), NoMemory>
    requires { tells ≡ length state.old.state.rejoin.tells }
    ensures { let s = state.old in OnOk result (Does s state.new sends.old sends.new (rejoining.after_views s.f s.me s.state)) }
{
    if tells < usize::from(state.cluster().slow()) {
        return Ok(());
    }
    let view = state.latest_view();
    if state.would_lead(view) {
        state.drop_views();
        return Ok(());
    }
    ask_log(state, view, sends)
}

/// What a replica does with a rejoin-tell, which it takes from replicas alone. A view is taken in the second phase, for
/// this restart.
#[tactic(auto, unfolding(nz_machine::specs::rules::Rejoining::rejoin_tell_rule))]
pub fn on_rejoin_tell(
    state: &mut ReplicaState,
    from: Actor,
    body: &RejoinTellBody,
    sends: &mut Outbox,
) -> Result<(), NoMemory>
    requires from { IsFromMember state.old from body.now.vector }
    requires fits { rejoin_tell.fits body.now }
    ensures { let s = state.old in OnOk result (Does s state.new sends.old sends.new (replica_message s.f s.me s.state from (RejoinTell body.now))) }
{
    let Actor::Replica(sender) = from else {
        return Ok(());
    };
    if !state.awaits(Phase::Views, body.nonce) || !state.merge_unless_stray(sender, &body.vector) {
        return Ok(());
    }
    let tells = state.note_view(sender, body)?;
    after_views(state, tells, sends)
}

// ---- the third phase: the log

/// Whether this is the log that the replica waits for: from the leader of the wanted view or a later one, for this
/// restart.
fn is_wanted(state: &ReplicaState, sender: u8, body: &StateTellBody) -> bool
    ensures { let s = state.now in
        result ≡ (awaits phases.Log s.state body.now.nonce
        && (nat_le s.state.rejoin.wanted body.now.view && (sender == leader_of s.f body.now.view))) }
{
    state.awaits(Phase::Log, body.nonce)
        && state.wanted_view() <= body.view
        && state.is_leader_of(body.view, sender)
}

/// The replica is in normal operation again, with the leader's log.
fn start(state: &mut ReplicaState, body: &mut StateTellBody) -> Result<(), NoMemory>
    requires fits { state_tell.fits body.old }
    requires other { IsFalse (leader_of state.old.f body.old.view == state.old.me) }
    ensures { let s = state.old in let b = body.old in OnOk result (DoesSilently s state.new (normal_in s.state b.view b.entries b.commit, [])) }
{
    let log = mem::replace(&mut body.entries, EntryList::new(state.allocator()));
    state.adopt_log(body.view, log, body.commit)
}

/// The log that the replica waits for is taken.
#[tactic(auto, unfolding(nz_machine::specs::rules::Rejoining::state_tell_rule))]
fn state_tell_rule(
    state: &mut ReplicaState,
    sender: u8,
    body: &mut StateTellBody,
) -> Result<(), NoMemory>
    requires from { IsFromOther state.old (actors.Replica sender) body.old.vector }
    requires fits { state_tell.fits body.old }
    ensures { let s = state.old in OnOk result (DoesSilently s state.new (rejoining.state_tell_rule s.f s.me s.state sender body.old)) }
{
    if !is_wanted(state, sender, body) || !state.merge_unless_stray(sender, &body.vector) {
        return Ok(());
    }
    start(state, body)
}

/// What a replica does with a state-tell, which it takes from other replicas alone. It sends nothing. A log that is adopted
/// is taken out of the body.
pub fn on_state_tell(
    state: &mut ReplicaState,
    from: Actor,
    body: &mut StateTellBody,
) -> Result<(), NoMemory>
    requires from { IsFromOther state.old from body.old.vector }
    requires fits { state_tell.fits body.old }
    ensures { let s = state.old in OnOk result (DoesSilently s state.new (replica_message s.f s.me s.state from (StateTell body.old))) }
{
    let Actor::Replica(sender) = from else {
        return Ok(());
    };
    state_tell_rule(state, sender, body)
}
