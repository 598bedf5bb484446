//! How a replica sends its replies.

ghost use Rattle.std.specs.Prelude.{◌≡◌, ◌<◌, ◌++◌, map, length, OnOk};
ghost use Rattle.std.specs.Map.{lookup};
ghost use Rattle.nz_base.specs.Key.{id_eq};
ghost use Rattle.nz_base.specs.declared.actor.Actor.TheVariants.{Replica};
ghost use Rattle.nz_machine.specs.rules.Replicas.{fast_replies, slow_replies};
ghost use Rattle.nz_machine.specs.rules.Step.{parcel};

use super::outbox::Outbox;
use super::state::ReplicaState;
use nz_base::{Actor, Id, NoMemory};
use nz_msg::{FastReplyBody, Message, SlowReplyBody};

impl ReplicaState {
    /// Sends the fast reply for the entry at a place to where its request came from, if that is known.
    pub fn reply_fast(&self, id: Id, place: u32, sends: &mut Outbox) -> Result<(), NoMemory>
        requires { place < length self.now.state.log.entries }
        ensures { OnOk result (sends.new ≡ sends.old
            ++ map (parcel (Replica self.now.me))
            (fast_replies self.now.f self.now.me self.now.state id place (lookup (id_eq id) self.now.state.origin))) }
    {
        match self.origin_of(id) {
            None => Ok(()),
            Some(origin) => {
                let message = Message::FastReply(FastReplyBody {
                    view: self.view(),
                    id,
                    digest: self.log().digest_at(place),
                    vector: *self.vector(),
                    delay: origin.delay,
                    answer: self.answer_at(place)?,
                });
                let to = Actor::Proxy(origin.proxy);
                sends.send(self.actor(), to, &message)
            }
        }
    }

    /// Sends the slow reply for a request to where it came from, if that is known.
    pub fn reply_slowly(&self, id: Id, sends: &mut Outbox) -> Result<(), NoMemory>
        ensures { OnOk result (sends.new ≡ sends.old
            ++ map (parcel (Replica self.now.me)) (slow_replies self.now.state id (lookup (id_eq id) self.now.state.origin))) }
    {
        match self.origin_of(id) {
            None => Ok(()),
            Some(origin) => {
                let message = Message::SlowReply(SlowReplyBody {
                    view: self.view(),
                    id,
                    delay: origin.delay,
                });
                let to = Actor::Proxy(origin.proxy);
                sends.send(self.actor(), to, &message)
            }
        }
    }
}
