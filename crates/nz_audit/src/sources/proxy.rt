//! What a proxy knows of all requests.

ghost use Rattle.std.specs.Prelude.{◌≡◌, ℕ, Bool, Option, IfOk, OnOk, None, Some, false, IsTrue, if◌then◌else◌};
ghost use Rattle.std.specs.Option.{option_map, option_flatten};
ghost use Rattle.nz_base.specs.Key.{id_eq};
ghost use Rattle.nz_base.specs.declared.key.Id.{Id as IdModel};
ghost use Rattle.nz_base.specs.declared.actor.Actor.TheVariants as actors;
ghost use Rattle.indexmap.specs.IndexMap.{get};
ghost use Rattle.nz_machine.specs.rules.Step.{accepted_envelope, if_from_cluster, is_in_cluster, is_sized, message_vector};
ghost use Rattle.nz_quorum.specs.Tallies.{IsOfCluster};
ghost use Rattle.nz_audit.specs.Noting.{noted_after_request, noted_by, source_if_answer, after_message, after_envelope, after_event, down_after};
ghost use Rattle.nz_audit.specs.Noting.{is_open, IsSized};
ghost use Rattle.nz_audit.specs.Sources.{kept_of, source_delivered};
ghost use Rattle.nz_audit.specs.declared.accepted.answers.Source.{Source as SourceModel};

use crate::sources::fields::named_id;
use crate::sources::notes::{Noted, Notes};
use crate::sources::sendings::{Delivery, Sendings};
use indexmap::IndexMap;
use nz_base::{Actor, Cluster, Id, NoMemory};
use nz_machine::{Event, Parcel, Reply, heard, is_from_cluster};
use nz_msg::{Envelope, Message};
use std::alloc::Global;

/// What a proxy knows.
#[derive(Drop)]
pub struct ProxyNotes {
    pub is_down: bool,
    pub known: IndexMap<Id, Noted>,
}

impl ProxyNotes {
    /// Nothing is known.
    pub fn new(alloc: Global) -> ProxyNotes
        ensures up { result.is_down ≡ false }
        ensures known { (id : IdModel) → get id_eq result.known id ≡ None }
    {
        ProxyNotes {
            is_down: false,
            known: IndexMap::new(alloc),
        }
    }

    /// Opens a request that is not known.
    fn open(&mut self, alloc: Global, cluster: Cluster, id: Id) -> Result<(), NoMemory>
        ensures down { self.new.is_down ≡ self.old.is_down }
        ensures known { OnOk result ((x : IdModel)
            → get id_eq self.new.known x ≡ (if id_eq id x then noted_after_request cluster
            (get id_eq self.old.known x) else get id_eq self.old.known x)) }
    {
        if !self.known.contains_key(&id) {
            self.known
                .insert(id, Noted::Open(Notes::new(alloc, cluster)))?;
        }
        Ok(())
    }

    /// Notes a reply to the request, if it is known.
    fn note(
        &mut self,
        cluster: Cluster,
        id: Id,
        reply: Reply,
        delivery: &Delivery,
    ) -> Result<(), NoMemory>
        requires reply { IsOfCluster cluster reply }
        requires sized { IsSized cluster (get id_eq self.old.known id) }
        ensures down { self.new.is_down ≡ self.old.is_down }
        ensures known { OnOk result ((x : IdModel)
            → get id_eq self.new.known x ≡ (if id_eq id x then option_map (noted_by delivery.now.is_silent reply
            (source_if_answer (option_flatten (kept_of delivery.now.sendings.now.kept.entries delivery.now.parcel.now)) reply))
            (get id_eq self.old.known x) else get id_eq self.old.known x)) }
    {
        match self.known.get_mut(&id) {
            Some(noted) => noted.note(reply, delivery),
            None => Ok(()),
        }
    }

    /// Takes a message that counts, while the proxy is up.
    fn take_message(
        &mut self,
        alloc: Global,
        cluster: Cluster,
        envelope: Envelope,
        delivery: &Delivery,
    ) -> Result<(), NoMemory>
        requires sender { IsTrue (is_in_cluster cluster envelope.from) }
        requires vector { IsTrue (is_sized cluster (message_vector envelope.message)) }
        requires sized { (x : IdModel) → IsSized cluster (get id_eq self.old.known x) }
        ensures down { self.new.is_down ≡ self.old.is_down }
        ensures known { OnOk result ((x : IdModel)
            → get id_eq self.new.known x
            ≡ after_message cluster (option_flatten (kept_of delivery.now.sendings.now.kept.entries delivery.now.parcel.now)) delivery.now.is_silent x
            envelope.from envelope.message (get id_eq self.old.known x)) }
    {
        match envelope.from {
            Actor::Client(client) => match envelope.message {
                Message::Request(body) => {
                    let id = Id {
                        client: u32::from(client),
                        num: body.num,
                    };
                    self.open(alloc, cluster, id)
                }
                _ => Ok(()),
            },
            Actor::Replica(replica) => match envelope.message {
                Message::FastReply(body) => {
                    let id = body.id;
                    self.note(cluster, id, Reply::from_fast(replica, body), delivery)
                }
                Message::SlowReply(body) => {
                    self.note(cluster, body.id, Reply::from_slow(replica, &body), delivery)
                }
                _ => Ok(()),
            },
            Actor::Proxy(_) => Ok(()),
        }
    }

    fn is_open(&self, id: Id) -> bool
        ensures { result ≡ is_open (get id_eq self.now.known id) }
    {
        match self.known.get(&id) {
            Some(Noted::Open(_)) => true,
            Some(Noted::Decided(_)) | None => false,
        }
    }

    /// Whether the parcel is a reply to a request that is not open. Such a reply changes nothing, and is not decoded.
    fn is_past(&self, parcel: &Parcel) -> bool
        ensures { IsTrue result → (f me : ℕ) (source : Option SourceModel) (silent down : Bool) (x : IdModel)
            → after_envelope f source silent down x (accepted_envelope f (actors.Proxy me) parcel.now) (get id_eq self.now.known x)
            ≡ get id_eq self.now.known x }
    {
        let Actor::Replica(_) = parcel.from else {
            return false;
        };
        let Some(id) = named_id(&parcel.frame) else {
            return false;
        };
        !self.is_open(id)
    }

    /// Hears what it read: nothing where this is not from the cluster, or where it is down.
    fn hear_envelope(
        &mut self,
        alloc: Global,
        cluster: Cluster,
        envelope: Option<Envelope>,
        delivery: &Delivery,
    ) -> Result<(), NoMemory>
        requires { (x : IdModel) → IsSized cluster (get id_eq self.old.known x) }
        ensures down { self.new.is_down ≡ self.old.is_down }
        ensures known { OnOk result ((x : IdModel)
            → get id_eq self.new.known x
            ≡ after_envelope cluster (option_flatten (kept_of delivery.now.sendings.now.kept.entries delivery.now.parcel.now)) delivery.now.is_silent
            self.old.is_down x (if_from_cluster cluster envelope) (get id_eq self.old.known x)) }
    {
        let Some(envelope) = envelope else {
            return Ok(());
        };
        if !is_from_cluster(cluster, &envelope) {
            return Ok(());
        }
        if self.is_down {
            return Ok(());
        }
        self.take_message(alloc, cluster, envelope, delivery)
    }

    /// Hears the parcel.
    fn hear(
        &mut self,
        alloc: Global,
        cluster: Cluster,
        me: u8,
        delivery: &Delivery,
    ) -> Result<(), NoMemory>
        requires { (x : IdModel) → IsSized cluster (get id_eq self.old.known x) }
        ensures down { self.new.is_down ≡ self.old.is_down }
        ensures known { OnOk result ((x : IdModel)
            → get id_eq self.new.known x
            ≡ after_envelope cluster (option_flatten (kept_of delivery.now.sendings.now.kept.entries delivery.now.parcel.now)) delivery.now.is_silent
            self.old.is_down x (accepted_envelope cluster (actors.Proxy me) delivery.now.parcel.now) (get id_eq self.old.known x)) }
    {
        let envelope = heard(alloc, Actor::Proxy(me), delivery.parcel)?;
        self.hear_envelope(alloc, cluster, envelope, delivery)
    }

    /// Hears the parcel, unless it is a reply to a request that is not open.
    fn hear_if_new(
        &mut self,
        alloc: Global,
        cluster: Cluster,
        me: u8,
        delivery: &Delivery,
    ) -> Result<(), NoMemory>
        requires { (x : IdModel) → IsSized cluster (get id_eq self.old.known x) }
        ensures down { self.new.is_down ≡ self.old.is_down }
        ensures known { OnOk result ((x : IdModel)
            → get id_eq self.new.known x
            ≡ after_envelope cluster (option_flatten (kept_of delivery.now.sendings.now.kept.entries delivery.now.parcel.now)) delivery.now.is_silent
            self.old.is_down x (accepted_envelope cluster (actors.Proxy me) delivery.now.parcel.now) (get id_eq self.old.known x)) }
    {
        if self.is_past(delivery.parcel) {
            return Ok(());
        }
        self.hear(alloc, cluster, me, delivery)
    }

    /// Takes an event, and whether it sends nothing then.
    pub fn take(
        &mut self,
        alloc: Global,
        cluster: Cluster,
        me: u8,
        event: &Event,
        sendings: &Sendings,
        is_silent: bool,
    ) -> Result<(), NoMemory>
        requires { (x : IdModel) → IsSized cluster (get id_eq self.old.known x) }
        ensures down { OnOk result (self.new.is_down ≡ down_after event.now self.old.is_down) }
        ensures known { OnOk result ((x : IdModel)
            → get id_eq self.new.known x ≡ after_event cluster me (source_delivered sendings.now.kept.entries event.now) is_silent
            self.old.is_down x event.now (get id_eq self.old.known x)) }
    {
        match event {
            Event::Deliver(parcel) => {
                let delivery = Delivery {
                    parcel: parcel.get(),
                    sendings,
                    is_silent,
                };
                self.hear_if_new(alloc, cluster, me, &delivery)
            }
            Event::Crash => {
                *self = ProxyNotes::new(alloc);
                self.is_down = true;
                Ok(())
            }
            Event::Restart(_) => {
                if self.is_down {
                    self.is_down = false;
                    self.known = IndexMap::new(alloc);
                }
                Ok(())
            }
            Event::Cut(..) | Event::Tick(_) | Event::Alarm => Ok(()),
        }
    }
}
