//! A client as a core.

ghost use Rattle.std.specs.Prelude.{◌≡◌, ◌<◌, ◌≤◌, ◌↔◌, ◌∷◌, ◌++◌, [], true, OnOk, OnErr, IsTrue};
ghost use Rattle.nz_base.specs.declared.actor.Actor.TheVariants as actors;
ghost use Rattle.nz_base.specs.declared.limits.TheConstants.{MAX_CLIENT, MAX_PROXIES, MAX_WINDOW};
ghost use Rattle.nz_msg.specs.Fields.{command};
ghost use Rattle.nz_machine.specs.rules.State.{Group};
ghost use Rattle.nz_machine.specs.rules.Clients as clients;
ghost use Rattle.nz_machine.specs.rules.Clients.{first_client};
ghost use Rattle.nz_machine.specs.rules.Step.{event_step, envelope_step, client_message, accepted_envelope};
ghost use Rattle.nz_client.specs.Models.{ClientDoes, IsSendable, AreSendable, IsClientInGroup, IsSameClient, least_open};

use crate::state::ClientState;
use nz_base::{Actor, MAX_COMMAND, NoMemory, Request, RequestList};
use nz_machine::{Core, Event, Outbox, Parcel, Sends, heard};
use nz_msg::{Envelope, Message};
use std::alloc::Global;
use std::marker::Model;

/// Whether frames can carry each request of a script.
pub fn are_sendable(script: &RequestList) -> bool
    ensures { IsTrue result ↔ AreSendable script.now }
{
    script
        .as_slice()
        .iter()
        .all(|request| is_command(request.command.as_slice()))
}

fn is_command(bytes: &[u8]) -> bool
    ensures { IsTrue result ↔ command.fits bytes.now }
{
    1 <= bytes.len() && bytes.len() <= usize::from(MAX_COMMAND)
}

/// A client, which sends the requests of its script in their order: each when its wait is over and fewer are
/// open than its window has places, and again through the next proxy while no answer comes.
#[derive(Drop)]
pub struct Client {
    state: ClientState,
    /// Between steps it is empty, unless a step ran out of memory.
    outbox: Outbox,
    live: bool,
}

impl Model for Client {
    ghost use Rattle.std.specs.Prelude.{◌≡◌, [], IsTrue};
    ghost use Rattle.nz_client.specs.Models.{ClientCore};

    ghost Value = { ClientCore };

    ghost view = { λ c. record { model = c.state; live = c.live } };

    ghost invariant = { λ c. IsTrue c.live → c.outbox ≡ [] };
}

impl Client {
    /// A client in its first state, with its requests.
    pub fn new(alloc: Global, me: u8, proxies: u8, window: u8, script: RequestList) -> Client
        requires named { me ≤ MAX_CLIENT }
        requires least { 1 ≤ proxies }
        requires most { proxies ≤ MAX_PROXIES }
        requires some { 1 ≤ window }
        requires narrow { window ≤ MAX_WINDOW }
        requires sendable { AreSendable script }
        ensures { result ≡ record { model = record { me = me; proxies = proxies; window = window; script = script; state = first_client }; live = true } }
    {
        Client {
            state: ClientState::new(alloc, me, proxies, window, script),
            outbox: Outbox::new(alloc),
            live: true,
        }
    }

    /// The least number of an open request, if one is.
    pub fn open(&self) -> Option<u32>
        ensures { result ≡ least_open self.now.model.state.attempts }
    {
        self.state.least_open()
    }

    /// Whether the request of this number is open.
    pub fn is_open(&self, num: u32) -> bool
        ensures { result ≡ clients.is_open num self.now.model.state.attempts }
    {
        self.state.is_open(num)
    }

    /// How many ticks were counted.
    pub fn ticks(&self) -> u32
        ensures { result ≡ self.now.model.state.ticks }
    {
        self.state.ticks()
    }

    /// Puts the request after all others of the script. It is not due yet, so each step so far is as with it.
    pub fn append(&mut self, request: Request) -> Result<(), NoMemory>
        requires sendable { IsSendable request }
        requires later { self.old.model.state.ticks < request.wait }
        ensures ok { OnOk result (self.new ≡ record self.old { model = record self.old.model { script = self.old.model.script ++ request ∷ [] } }) }
        ensures err { OnErr result (self.new ≡ self.old) }
    {
        self.state.append(request)
    }

    /// How many requests were accepted.
    pub fn finished(&self) -> u32
        ensures { result ≡ self.now.model.state.accepted }
    {
        self.state.accepted()
    }
}

impl ClientState {
    fn handle(&mut self, envelope: &Envelope, sends: &mut Outbox) -> Result<(), NoMemory>
        ensures same { IsSameClient self.old self.new }
        ensures rule { let s = self.old in
            OnOk result (ClientDoes s self.new sends.old sends.new
            (client_message s.window s.proxies s.me s.script s.state envelope.now.from envelope.now.message)) }
    {
        match (envelope.from, &envelope.message) {
            (Actor::Proxy(_), Message::Answer(body)) => self.accept_rule(body, sends),
            _ => Ok(()),
        }
    }

    fn deliver(&mut self, p: &Parcel, sends: &mut Outbox) -> Result<(), NoMemory>
        ensures same { IsSameClient self.old self.new }
        ensures rule { let s = self.old in
            (g : Group) → IsClientInGroup g s
            → OnOk result (ClientDoes s self.new sends.old sends.new
            (envelope_step g (actors.Client s.me) s.state (accepted_envelope g.f (actors.Client s.me) p.now))) }
    {
        match heard(self.allocator(), self.actor(), p)? {
            None => Ok(()),
            Some(envelope) => self.handle(&envelope, sends),
        }
    }

    fn take(&mut self, event: &Event, sends: &mut Outbox) -> Result<(), NoMemory>
        ensures same { IsSameClient self.old self.new }
        ensures rule { let s = self.old in
            (g : Group) → IsClientInGroup g s
            → OnOk result (ClientDoes s self.new sends.old sends.new (event_step g (actors.Client s.me) s.state event.now)) }
    {
        match event {
            Event::Deliver(p) => self.deliver(p.get(), sends),
            Event::Tick(_) => self.wait_rule(sends),
            Event::Cut(..) | Event::Alarm | Event::Crash | Event::Restart(_) => Ok(()),
        }
    }
}

impl Core for Client {
    ghost use Rattle.nz_base.specs.declared.actor.Actor.TheVariants as actors;
    ghost use Rattle.nz_client.specs.Models.{IsClientInGroup};

    ghost meaning = { λ c. record { actor = actors.Client c.model.me; state = c.model.state } };

    ghost live = { λ c. c.live };

    ghost fits = { λ c g. IsClientInGroup g c.model };

    fn step(&mut self, event: &Event) -> Result<Sends, NoMemory> {
        match self.state.take(event, &mut self.outbox) {
            Ok(()) => Ok(self.outbox.take()),
            Err(error) => {
                self.live = false;
                Err(error)
            }
        }
    }

    fn is_live(&self) -> bool {
        self.live
    }

    fn actor(&self) -> Actor {
        self.state.actor()
    }
}
