//! The messages by which replicas change views and rejoin, and how they are sent.

ghost use Rattle.std.specs.Prelude.{◌≡◌, ◌≤◌, ◌++◌, map, IfOk, OnOk};
ghost use Rattle.nz_base.specs.declared.actor.Actor.TheVariants as actors;
ghost use Rattle.nz_base.specs.declared.limits.TheConstants.{MAX_REPLICA};
ghost use Rattle.nz_msg.specs.Messages.{Fits, body_of};
ghost use Rattle.nz_msg.specs.declared.message.Message.TheVariants.{VectorTell};
ghost use Rattle.nz_machine.specs.rules.Step.{parcel};
ghost use Rattle.nz_machine.specs.rules.Replicas.{to_others, to_replica};
ghost use Rattle.nz_machine.specs.rules.Views.{view_ask_message, view_change_message, view_calls};
ghost use Rattle.nz_machine.specs.rules.Adopting.{start_view_message};
ghost use Rattle.nz_machine.specs.rules.Rejoining.{vector_ask_message, rejoin_ask_message, rejoin_tell_message, state_ask_message, state_tell_message};

use super::super::outbox::Outbox;
use super::ReplicaState;
use bytes::Bytes;
use nz_base::{Actor, NoMemory};
use nz_msg::{
    Message, RejoinAskBody, RejoinTellBody, StartViewBody, StateAskBody, StateTellBody,
    VectorAskBody, VectorTellBody, ViewAskBody, ViewChangeBody,
};

impl ReplicaState {
    /// Sends the message, whose body was written, to one replica.
    fn send_written_to(
        &self,
        replica: u8,
        message: &Message,
        body: &Bytes,
        sends: &mut Outbox,
    ) -> Result<(), NoMemory>
        requires replica { replica ≤ MAX_REPLICA }
        requires message { Fits message.now }
        requires body { body.now ≡ body_of message.now }
        ensures { OnOk result (sends.new ≡ sends.old ++ map (parcel (actors.Replica self.now.me)) (to_replica replica message.now)) }
    {
        let to = Actor::Replica(replica);
        sends.send_written(self.actor(), to, message, body)
    }

    /// Sends the message to one replica.
    pub fn send_to(
        &self,
        replica: u8,
        message: &Message,
        sends: &mut Outbox,
    ) -> Result<(), NoMemory>
        requires replica { replica ≤ MAX_REPLICA }
        requires message { Fits message.now }
        ensures { OnOk result (sends.new ≡ sends.old ++ map (parcel (actors.Replica self.now.me)) (to_replica replica message.now)) }
    {
        let to = Actor::Replica(replica);
        sends.send(self.actor(), to, message)
    }

    /// Sends the message, whose body was written, to each of the others.
    fn send_written_to_others(
        &self,
        message: &Message,
        body: &Bytes,
        sends: &mut Outbox,
    ) -> Result<(), NoMemory>
        requires message { Fits message.now }
        requires body { body.now ≡ body_of message.now }
        ensures { OnOk result (sends.new ≡ sends.old ++ map (parcel (actors.Replica self.now.me)) (to_others self.now.f self.now.me message.now)) }
    {
        // f is at most MAX_F, so each number is at most MAX_REPLICA.
        let _most = self.parts.cluster.f();
        for replica in 0..self.parts.cluster.n() {
            if replica != self.parts.me {
                self.send_written_to(replica, message, body, sends)?;
            }
        }
        Ok(())
    }

    /// Sends the message to each of the others.
    pub fn send_to_others(&self, message: &Message, sends: &mut Outbox) -> Result<(), NoMemory>
        requires { Fits message.now }
        ensures { OnOk result (sends.new ≡ sends.old ++ map (parcel (actors.Replica self.now.me)) (to_others self.now.f self.now.me message.now)) }
    {
        let body = sends.write_body(message)?;
        self.send_written_to_others(message, &body, sends)
    }

    /// The others are asked to enter the view.
    pub fn view_ask(&self) -> Message
        ensures value { result ≡ view_ask_message self.now.state }
        ensures fits { Fits result }
    {
        Message::ViewAsk(ViewAskBody { view: self.view() })
    }

    /// What the replica reports to the leader of its view.
    pub fn view_change(&self) -> Result<Message, NoMemory>
        ensures value { IfOk result (λ message. message ≡ view_change_message self.now.state) }
        ensures fits { IfOk result Fits }
    {
        Ok(Message::ViewChange(ViewChangeBody {
            view: self.view(),
            last: self.parts.last,
            vector: *self.vector(),
            synced: self.parts.held.log.synced(),
            commit: self.parts.commit,
            entries: self.parts.held.log.entries()?,
        }))
    }

    /// The others are asked to enter the view, and its leader, if another, gets the report.
    pub fn call_for_view(&self, sends: &mut Outbox) -> Result<(), NoMemory>
        ensures { OnOk result (sends.new ≡ sends.old ++ map (parcel (actors.Replica self.now.me)) (view_calls self.now.f self.now.me self.now.state)) }
    {
        self.send_to_others(&self.view_ask(), sends)?;
        if self.leads() {
            return Ok(());
        }
        // f is at most MAX_F, so the leader's number is at most MAX_REPLICA.
        let _most = self.parts.cluster.f();
        let report = self.view_change()?;
        self.send_to(self.parts.cluster.leader(self.parts.view), &report, sends)
    }

    /// What the leader of a view sends to start it.
    pub fn start_view(&self) -> Result<Message, NoMemory>
        ensures value { IfOk result (λ message. message ≡ start_view_message self.now.state) }
        ensures fits { IfOk result Fits }
    {
        Ok(Message::StartView(StartViewBody {
            view: self.view(),
            vector: *self.vector(),
            commit: self.parts.commit,
            entries: self.parts.held.log.entries()?,
        }))
    }

    /// In the first phase of a rejoin the others are asked for their vectors.
    pub fn vector_ask(&self) -> Message
        ensures value { result ≡ vector_ask_message self.now.state }
        ensures fits { Fits result }
    {
        Message::VectorAsk(VectorAskBody {
            nonce: self.parts.rejoin.nonce,
        })
    }

    /// The answer to a vector-ask, with its nonce.
    pub fn vector_tell(&self, nonce: u64) -> Message
        ensures value { result ≡ VectorTell (record { nonce = nonce; vector = self.now.state.vector }) }
        ensures fits { Fits result }
    {
        Message::VectorTell(VectorTellBody {
            nonce,
            vector: *self.vector(),
        })
    }

    /// In the second phase of a rejoin the others are asked for their views. They get the new counter with it.
    pub fn rejoin_ask(&self) -> Message
        ensures value { result ≡ rejoin_ask_message self.now.state }
        ensures fits { Fits result }
    {
        Message::RejoinAsk(RejoinAskBody {
            nonce: self.parts.rejoin.nonce,
            vector: *self.vector(),
        })
    }

    /// The answer to a rejoin-ask, with its nonce.
    pub fn rejoin_tell(&self, nonce: u64) -> Message
        ensures value { result ≡ rejoin_tell_message self.now.state nonce }
        ensures fits { Fits result }
    {
        Message::RejoinTell(RejoinTellBody {
            nonce,
            view: self.view(),
            vector: *self.vector(),
        })
    }

    /// In the third phase of a rejoin the leader of the wanted view is asked.
    pub fn state_ask(&self) -> Message
        ensures value { result ≡ state_ask_message self.now.state }
        ensures fits { Fits result }
    {
        Message::StateAsk(StateAskBody {
            nonce: self.parts.rejoin.nonce,
            view: self.parts.rejoin.wanted,
            vector: *self.vector(),
        })
    }

    /// The answer to a state-ask, with its nonce.
    pub fn state_tell(&self, nonce: u64) -> Result<Message, NoMemory>
        ensures value { IfOk result (λ message. message ≡ state_tell_message self.now.state nonce) }
        ensures fits { IfOk result Fits }
    {
        Ok(Message::StateTell(StateTellBody {
            nonce,
            view: self.view(),
            vector: *self.vector(),
            commit: self.parts.commit,
            entries: self.parts.held.log.entries()?,
        }))
    }
}
