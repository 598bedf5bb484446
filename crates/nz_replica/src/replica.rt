//! A replica as a core.

ghost use Rattle.std.specs.Prelude.{◌≡◌, ◌≢◌, ◌<◌, ◌&&◌, true, Some, IsTrue, IfOk, OnOk};
ghost use Rattle.nz_base.specs.Actor.{HasAddress};
ghost use Rattle.nz_base.specs.Cluster.{replica_count};
ghost use Rattle.nz_base.specs.declared.actor.Actor.TheVariants as actors;
ghost use Rattle.nz_msg.specs.Messages.{Fits};
ghost use Rattle.nz_machine.specs.rules.State.{Group};
ghost use Rattle.nz_machine.specs.rules.Replicas as replicas;
ghost use Rattle.nz_machine.specs.rules.Replicas.{first_replica};
ghost use Rattle.nz_machine.specs.rules.Does.{Does};
ghost use Rattle.nz_machine.specs.rules.Step as step_words;
ghost use Rattle.nz_machine.specs.rules.Step.{envelope_step, replica_message, accepted_envelope, if_from_cluster};
ghost use Rattle.nz_machine.specs.rules.Step.{parcel, is_in_cluster, is_sized, message_vector};
ghost use Rattle.nz_replica.specs.Models.{IsOf};

use nz_base::{Actor, Cluster, NoMemory};
use nz_log::HashedLog;
use nz_machine::{Core, Event, Outbox, Parcel, ReplicaState, Sends, heard, is_from_cluster};
use nz_msg::{Envelope, Message};
use nz_normal::{on_timed, tick};
use nz_rejoin::{
    on_rejoin_ask, on_rejoin_tell, on_state_ask, on_state_tell, on_vector_ask, on_vector_tell,
    rejoin_timer, restart,
};
use nz_sync::{on_fetch, on_fetch_reply, on_log_mod, on_sync_report, send_log_mods};
use nz_view::{change_timer, on_alarm, on_start_view, on_view_ask, on_view_change, quiet_timer};
use std::alloc::Global;
use std::marker::Model;

/// A replica. Of its state nothing is known once a step ran out of memory, so its cluster is kept apart.
#[derive(Drop)]
pub struct Replica {
    cluster: Cluster,
    state: ReplicaState,
    /// Between steps it is empty, unless a step ran out of memory.
    outbox: Outbox,
    live: bool,
}

impl Model for Replica {
    ghost use Rattle.std.specs.Prelude.{◌≡◌, [], IsTrue};
    ghost use Rattle.nz_replica.specs.Models.{ReplicaCore};

    ghost Value = { ReplicaCore };

    ghost view = { λ r. record { f = r.cluster; model = r.state; live = r.live } };

    ghost invariant = { λ r. IsTrue r.live → (r.state.f ≡ r.cluster) × (r.outbox ≡ []) };
}

impl Replica {
    /// A replica in its first state.
    pub fn new(alloc: Global, cluster: Cluster, me: u8) -> Result<Replica, NoMemory>
        requires { me < replica_count cluster }
        ensures { IfOk result (λ replica. replica
            ≡ record { f = cluster; model = record { f = cluster; me = me; state = first_replica cluster }; live = true }) }
    {
        Ok(Replica {
            cluster,
            state: ReplicaState::new(alloc, cluster, me)?,
            outbox: Outbox::new(alloc),
            live: true,
        })
    }

    pub fn state(&self) -> &ReplicaState
        ensures { result.now ≡ self.now.model }
    {
        &self.state
    }

    pub fn log(&self) -> &HashedLog
        ensures { result.now ≡ self.now.model.state.log }
    {
        self.state.log()
    }

    pub fn view(&self) -> u64
        ensures { result ≡ self.now.model.state.view }
    {
        self.state.view()
    }

    /// Whether it leads its view in normal operation.
    pub fn leads_view(&self) -> bool
        ensures { IsTrue self.now.live → result ≡ replicas.leads_view self.now.f self.now.model.me self.now.model.state }
    {
        self.state.leads_view()
    }

    pub fn commit(&self) -> u32
        ensures { result ≡ self.now.model.state.commit }
    {
        self.state.commit()
    }

    /// Whether it is out of service.
    pub fn is_down(&self) -> bool
        ensures { result ≡ replicas.is_down self.now.model.state.status }
    {
        self.state.is_down()
    }

    /// Whether it is on the way back after a crash.
    pub fn is_rejoining(&self) -> bool
        ensures { result ≡ replicas.is_rejoining self.now.model.state.status }
    {
        self.state.is_rejoining()
    }
}

/// Which rule handles a message. A log that the state takes is taken out of the message.
fn handle(
    state: &mut ReplicaState,
    envelope: &mut Envelope,
    sends: &mut Outbox,
) -> Result<(), NoMemory>
    requires from { HasAddress envelope.old.from }
    requires other { envelope.old.from ≢ actors.Replica state.old.me }
    requires fits { Fits envelope.old.message }
    requires counted { IsTrue (is_in_cluster state.old.f envelope.old.from && is_sized state.old.f (message_vector envelope.old.message)) }
    ensures { let s = state.old in
        OnOk result (Does s state.new sends.old sends.new (replica_message s.f s.me s.state envelope.old.from envelope.old.message)) }
{
    let from = envelope.from;
    match &mut envelope.message {
        Message::Timed(body) => on_timed(state, from, body, sends),
        Message::LogMod(body) => on_log_mod(state, from, body, sends),
        Message::Fetch(body) => on_fetch(state, from, body, sends),
        Message::FetchReply(body) => on_fetch_reply(state, from, body),
        Message::SyncReport(body) => {
            on_sync_report(state, from, body);
            Ok(())
        }
        Message::ViewAsk(body) => on_view_ask(state, from, body, sends),
        Message::ViewChange(body) => on_view_change(state, from, body, sends),
        Message::StartView(body) => on_start_view(state, from, body),
        Message::VectorAsk(body) => on_vector_ask(state, from, body, sends),
        Message::VectorTell(body) => on_vector_tell(state, from, body, sends),
        Message::RejoinAsk(body) => on_rejoin_ask(state, from, body, sends),
        Message::RejoinTell(body) => on_rejoin_tell(state, from, body, sends),
        Message::StateAsk(body) => on_state_ask(state, from, body, sends),
        Message::StateTell(body) => on_state_tell(state, from, body),
        Message::Request(_) | Message::FastReply(_) | Message::SlowReply(_) | Message::Answer(_) =>
            Ok(()),
    }
}

/// What a replica does with what it read: nothing where it is down, or where this is not from the cluster.
fn hear(
    state: &mut ReplicaState,
    envelope: &mut Envelope,
    sends: &mut Outbox,
) -> Result<(), NoMemory>
    requires from { HasAddress envelope.old.from }
    requires other { envelope.old.from ≢ actors.Replica state.old.me }
    requires fits { Fits envelope.old.message }
    ensures { let s = state.old in
        (g : Group) → IsOf g s
        → OnOk result (Does s state.new sends.old sends.new
        (envelope_step g (actors.Replica s.me) s.state (if_from_cluster g.f (Some envelope.old)))) }
{
    if !is_from_cluster(state.cluster(), envelope) {
        return Ok(());
    }
    if state.is_down() {
        return Ok(());
    }
    handle(state, envelope, sends)
}

fn deliver(state: &mut ReplicaState, p: &Parcel, sends: &mut Outbox) -> Result<(), NoMemory>
    ensures { let s = state.old in
        (g : Group) → IsOf g s
        → OnOk result (Does s state.new sends.old sends.new
        (envelope_step g (actors.Replica s.me) s.state (accepted_envelope g.f (actors.Replica s.me) p.now))) }
{
    match heard(state.allocator(), state.actor(), p)? {
        None => Ok(()),
        Some(mut envelope) => hear(state, &mut envelope, sends),
    }
}

/// What a replica does at a tick after its releases, by its mode.
fn mode_timer(state: &mut ReplicaState, sends: &mut Outbox) -> Result<(), NoMemory>
    ensures { let s = state.old in OnOk result (Does s state.new sends.old sends.new (step_words.mode_timer s.state.status s.f s.me s.state)) }
{
    if state.is_normal() {
        if state.leads() {
            return send_log_mods(state, sends);
        }
        return quiet_timer(state, sends);
    }
    if state.is_changing() {
        return change_timer(state, sends);
    }
    if state.is_rejoining() {
        return rejoin_timer(state, sends);
    }
    Ok(())
}

/// Releases what is due, and then the mode's timer counts.
fn tick_rule(state: &mut ReplicaState, clock: u64, sends: &mut Outbox) -> Result<(), NoMemory>
    ensures { let s = state.old in OnOk result (Does s state.new sends.old sends.new (step_words.tick_rule s.f s.me s.state clock)) }
{
    tick(state, clock, sends)?;
    mode_timer(state, sends)
}

#[tactic(auto, unfolding(nz_machine::specs::rules::Rejoining::crash_rule))]
fn event_step(state: &mut ReplicaState, event: &Event, sends: &mut Outbox) -> Result<(), NoMemory>
    ensures { let s = state.old in
        (g : Group) → IsOf g s → OnOk result (Does s state.new sends.old sends.new (step_words.event_step g (actors.Replica s.me) s.state event.now)) }
{
    match event {
        Event::Deliver(p) => deliver(state, p.get(), sends),
        Event::Tick(clock) if !state.is_down() => tick_rule(state, *clock, sends),
        Event::Alarm => on_alarm(state, sends),
        Event::Crash => {
            state.crash();
            Ok(())
        }
        Event::Restart(nonce) => restart(state, *nonce, sends),
        Event::Tick(_) | Event::Cut(..) => Ok(()),
    }
}

impl Core for Replica {
    ghost use Rattle.std.specs.Prelude.{◌≡◌};
    ghost use Rattle.nz_base.specs.declared.actor.Actor.TheVariants as actors;

    ghost meaning = { λ r. record { actor = actors.Replica r.model.me; state = r.model.state } };

    ghost live = { λ r. r.live };

    ghost fits = { λ r g. g.f ≡ r.f };

    fn step(&mut self, event: &Event) -> Result<Sends, NoMemory> {
        match event_step(&mut self.state, event, &mut self.outbox) {
            Ok(()) => Ok(self.outbox.take()),
            Err(error) => {
                self.live = false;
                Err(error)
            }
        }
    }

    fn is_live(&self) -> bool {
        self.live
    }

    fn actor(&self) -> Actor {
        self.state.actor()
    }
}
