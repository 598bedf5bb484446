//! What a proxy knows of one request, and which record each reply comes from.

ghost use Rattle.std.specs.Prelude.{◌≡◌, OnOk};
ghost use Rattle.std.specs.Option.{option_copied, option_flatten};
ghost use Rattle.nz_quorum.specs.Tallies.{IsOfCluster};
ghost use Rattle.nz_audit.specs.Noting.{first_notes, with_source, source_if_answer, source_among, decided_source, noted_by, IsNotableBeside};
ghost use Rattle.nz_audit.specs.Sources.{kept_of};

use crate::accepted::answers::Source;
use crate::sources::sendings::Delivery;
use nz_base::{Cluster, List, NoMemory};
use nz_machine::Reply;
use nz_quorum::Tally;
use std::alloc::Global;

/// The replies to an open request, and the source of each in the same order.
#[derive(Drop)]
pub struct Notes {
    pub tally: Tally,
    pub sources: List<Option<Source>>,
}

/// What a proxy knows of a request.
#[derive(Drop)]
pub enum Noted {
    Open(Notes),
    /// The source of the reply that decided.
    Decided(Option<Source>),
}

impl Notes {
    /// No replies.
    pub fn new(alloc: Global, cluster: Cluster) -> Notes
        ensures { result ≡ first_notes cluster }
    {
        Notes {
            tally: Tally::new(alloc, cluster),
            sources: List::new(alloc),
        }
    }

    /// Notes the reply, once.
    fn note(&mut self, reply: Reply, source: Option<Source>) -> Result<(), NoMemory>
        requires { IsOfCluster self.old.tally.f reply }
        ensures { OnOk result (self.new ≡ with_source self.old reply source) }
    {
        if !self.tally.is_noted(&reply) {
            self.tally.note(reply)?;
            self.sources.push(source)?;
        }
        Ok(())
    }

    /// The source of a noted reply.
    fn source_of(&self, reply: &Reply) -> Option<Source>
        ensures { result ≡ source_among self.now.sources self.now.tally.replies reply.now }
    {
        let place = self.tally.place_of(reply)?;
        match self.sources.as_slice().get(place) {
            Some(source) => *source,
            None => None,
        }
    }

    /// The source of the reply that decides, where one does.
    fn decided(&self) -> Option<Option<Source>>
        ensures { result ≡ decided_source self.now }
    {
        let decision = self.tally.decide()?;
        Some(self.source_of(decision.reply))
    }
}

impl Noted {
    /// Notes a reply to an open request, and whether the replies decide now. Replies that decide make the proxy
    /// answer its client.
    pub fn note(&mut self, reply: Reply, delivery: &Delivery) -> Result<(), NoMemory>
        requires { IsNotableBeside self.old reply }
        ensures { OnOk result (self.new ≡ noted_by delivery.now.is_silent reply
            (source_if_answer (option_flatten (kept_of delivery.now.sendings.now.kept.entries delivery.now.parcel.now)) reply) self.old) }
    {
        match self {
            Noted::Decided(_) => Ok(()),
            Noted::Open(notes) => {
                let source = delivery.source_of(&reply)?;
                notes.note(reply, source)?;
                if delivery.is_silent {
                    return Ok(());
                }
                if let Some(source) = notes.decided() {
                    *self = Noted::Decided(source);
                }
                Ok(())
            }
        }
    }
}
