//! A proxy as a core.

ghost use Rattle.std.specs.Prelude.{◌≡◌, ◌<◌, ◌≤◌, Some, true, length, OnOk, IsTrue};
ghost use Rattle.nz_base.specs.Actor.{HasAddress};
ghost use Rattle.nz_base.specs.Cluster.{replica_count};
ghost use Rattle.nz_base.specs.declared.actor.Actor.TheVariants as actors;
ghost use Rattle.nz_base.specs.declared.limits.TheConstants.{MAX_PROXIES};
ghost use Rattle.nz_msg.specs.Messages.{Fits, fast_reply, slow_reply};
ghost use Rattle.nz_machine.specs.rules.Proxies as proxies;
ghost use Rattle.nz_machine.specs.rules.Proxies.{first_proxy, crashed_proxy, restarted_proxy, of_fast, of_slow};
ghost use Rattle.nz_machine.specs.rules.Step.{event_step, envelope_step, if_from_cluster, accepted_envelope};
ghost use Rattle.nz_machine.specs.rules.Step.{is_in_cluster, is_sized, message_vector, proxy_message};
ghost use Rattle.nz_proxy.specs.Models.{ProxyDoes, IsSameProxy, group_with_cluster, proxy_after_tick};

use crate::state::ProxyState;
use nz_base::{Actor, Cluster, NoMemory};
use nz_machine::{Core, Event, Outbox, Parcel, Reply, Sends, heard, is_from_cluster};
use nz_msg::{Envelope, FastReplyBody, Message, SlowReplyBody};
use std::alloc::Global;
use std::marker::Model;

/// A proxy. It stamps each request of a client with a deadline and sends it to all replicas; where the
/// replies of a quorum decide, it answers the client, and again when the request comes again.
#[derive(Drop)]
pub struct Proxy {
    state: ProxyState,
    /// Between steps it is empty, unless a step ran out of memory.
    outbox: Outbox,
    live: bool,
}

impl Model for Proxy {
    ghost use Rattle.std.specs.Prelude.{◌≡◌, [], IsTrue};
    ghost use Rattle.nz_proxy.specs.Models.{ProxyCore};

    ghost Value = { ProxyCore };

    ghost view = { λ p. record { model = p.state; live = p.live } };

    ghost invariant = { λ p. IsTrue p.live → p.outbox ≡ [] };
}

impl Proxy {
    /// A proxy in its first state.
    pub fn new(alloc: Global, cluster: Cluster, me: u8) -> Proxy
        requires { me < MAX_PROXIES }
        ensures { result ≡ record { model = record { f = cluster; me = me; state = first_proxy cluster }; live = true } }
    {
        Proxy {
            state: ProxyState::new(alloc, cluster, me),
            outbox: Outbox::new(alloc),
            live: true,
        }
    }

    /// Forgets all, and is down until it restarts.
    pub fn crash(&mut self)
        ensures { self.new ≡ record self.old { model = record self.old.model { state = crashed_proxy self.old.model.f } } }
    {
        self.state.crash();
    }

    /// Begins anew, if it is down.
    pub fn restart(&mut self)
        ensures { self.new ≡ record self.old { model = record self.old.model { state = restarted_proxy self.old.model.f self.old.model.state } } }
    {
        self.state.restart();
    }
}

impl ProxyState {
    fn take_fast(
        &mut self,
        replica: u8,
        body: FastReplyBody,
        sends: &mut Outbox,
    ) -> Result<(), NoMemory>
        requires replica { replica < replica_count self.old.f }
        requires vector { length body.vector ≡ replica_count self.old.f }
        requires body { fast_reply.fits body }
        ensures same { IsSameProxy self.old self.new }
        ensures rule { let s = self.old in
            OnOk result (ProxyDoes s self.new sends.old sends.new
            (proxies.reply_rule s.f s.state replica body.id body.delay (of_fast replica body))) }
    {
        let (id, delay) = (body.id, body.delay);
        let reply = Reply::from_fast(replica, body);
        self.reply_rule(replica, id, delay, reply, sends)
    }

    fn take_slow(
        &mut self,
        replica: u8,
        body: SlowReplyBody,
        sends: &mut Outbox,
    ) -> Result<(), NoMemory>
        requires { replica < replica_count self.old.f }
        ensures same { IsSameProxy self.old self.new }
        ensures rule { let s = self.old in
            OnOk result (ProxyDoes s self.new sends.old sends.new
            (proxies.reply_rule s.f s.state replica body.id body.delay (of_slow replica body))) }
    {
        let reply = Reply::from_slow(replica, &body);
        self.reply_rule(replica, body.id, body.delay, reply, sends)
    }

    /// Takes a message that counts, while the proxy is up.
    fn handle(&mut self, envelope: Envelope, sends: &mut Outbox) -> Result<(), NoMemory>
        requires from { HasAddress envelope.from }
        requires message { Fits envelope.message }
        requires sender { IsTrue (is_in_cluster self.old.f envelope.from) }
        requires vector { IsTrue (is_sized self.old.f (message_vector envelope.message)) }
        ensures same { IsSameProxy self.old self.new }
        ensures rule { let s = self.old in OnOk result (ProxyDoes s self.new sends.old sends.new (proxy_message s.f s.state envelope.from envelope.message)) }
    {
        match envelope.from {
            Actor::Client(client) => match envelope.message {
                Message::Request(body) => self.stamp_rule(client, body, sends),
                _ => Ok(()),
            },
            Actor::Replica(replica) => match envelope.message {
                Message::FastReply(body) => self.take_fast(replica, body, sends),
                Message::SlowReply(body) => self.take_slow(replica, body, sends),
                _ => Ok(()),
            },
            Actor::Proxy(_) => Ok(()),
        }
    }

    fn deliver(&mut self, p: &Parcel, sends: &mut Outbox) -> Result<(), NoMemory>
        ensures same { IsSameProxy self.old self.new }
        ensures rule { let s = self.old in
            OnOk result (ProxyDoes s self.new sends.old sends.new
            (envelope_step (group_with_cluster s.f) (actors.Proxy s.me) s.state (accepted_envelope s.f (actors.Proxy s.me) p.now))) }
    {
        let Some(envelope) = heard(self.allocator(), self.actor(), p)? else {
            return Ok(());
        };
        if self.is_down() || !is_from_cluster(self.cluster(), &envelope) {
            return Ok(());
        }
        self.handle(envelope, sends)
    }

    fn tick(&mut self, clock: u64)
        ensures { self.new ≡ record self.old { state = proxy_after_tick self.old.state clock } }
    {
        if !self.is_down() {
            self.clock_rule(clock);
        }
    }

    fn take(&mut self, event: &Event, sends: &mut Outbox) -> Result<(), NoMemory>
        ensures same { IsSameProxy self.old self.new }
        ensures rule { let s = self.old in
            OnOk result (ProxyDoes s self.new sends.old sends.new (event_step (group_with_cluster s.f) (actors.Proxy s.me) s.state event.now)) }
    {
        match event {
            Event::Deliver(p) => self.deliver(p.get(), sends),
            Event::Tick(clock) => {
                self.tick(*clock);
                Ok(())
            }
            Event::Crash => {
                self.crash();
                Ok(())
            }
            Event::Restart(_) => {
                self.restart();
                Ok(())
            }
            Event::Cut(..) | Event::Alarm => Ok(()),
        }
    }
}

impl Core for Proxy {
    ghost use Rattle.std.specs.Prelude.{◌≡◌};
    ghost use Rattle.nz_base.specs.declared.actor.Actor.TheVariants as actors;

    ghost meaning = { λ p. record { actor = actors.Proxy p.model.me; state = p.model.state } };

    ghost live = { λ p. p.live };

    ghost fits = { λ p g. g.f ≡ p.model.f };

    fn step(&mut self, event: &Event) -> Result<Sends, NoMemory> {
        match self.state.take(event, &mut self.outbox) {
            Ok(()) => Ok(self.outbox.take()),
            Err(error) => {
                self.live = false;
                Err(error)
            }
        }
    }

    fn is_live(&self) -> bool {
        self.live
    }

    fn actor(&self) -> Actor {
        self.state.actor()
    }
}
