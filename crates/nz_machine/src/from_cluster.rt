//! Whether sender and crash vector of a message fit the cluster.

ghost use Rattle.std.specs.Prelude.{◌≡◌, ◌&&◌};
ghost use Rattle.std.specs.Option.{option_copied};
ghost use Rattle.nz_machine.specs.rules.Step.{is_in_cluster, is_sized, message_vector};

use nz_base::{Actor, Cluster};
use nz_cv::CrashVector;
use nz_msg::{Envelope, Message};

/// Whether a message counts: its sender is in the cluster, and its crash vector, if it has one, has a counter for
/// each replica.
pub fn is_from_cluster(cluster: Cluster, envelope: &Envelope) -> bool
    ensures { result ≡ (is_in_cluster cluster envelope.now.from && is_sized cluster (message_vector envelope.now.message)) }
{
    is_sender(cluster, envelope.from) && is_sized_for(cluster, vector_of(&envelope.message))
}

fn is_sender(cluster: Cluster, from: Actor) -> bool
    ensures { result ≡ is_in_cluster cluster from }
{
    match from {
        Actor::Replica(replica) => replica < cluster.n(),
        Actor::Proxy(_) | Actor::Client(_) => true,
    }
}

fn is_sized_for(cluster: Cluster, vector: Option<&CrashVector>) -> bool
    ensures { result ≡ is_sized cluster (option_copied vector.entry) }
{
    match vector {
        None => true,
        Some(vector) => vector.size() == cluster.n(),
    }
}

fn vector_of(message: &Message) -> Option<&CrashVector>
    ensures { option_copied result ≡ message_vector message.now }
{
    match message {
        Message::FastReply(body) => Some(&body.vector),
        Message::LogMod(body) => Some(&body.vector),
        Message::ViewChange(body) => Some(&body.vector),
        Message::StartView(body) => Some(&body.vector),
        Message::VectorTell(body) => Some(&body.vector),
        Message::RejoinAsk(body) => Some(&body.vector),
        Message::RejoinTell(body) => Some(&body.vector),
        Message::StateAsk(body) => Some(&body.vector),
        Message::StateTell(body) => Some(&body.vector),
        Message::Request(_)
        | Message::Timed(_)
        | Message::SlowReply(_)
        | Message::Answer(_)
        | Message::Fetch(_)
        | Message::FetchReply(_)
        | Message::SyncReport(_)
        | Message::ViewAsk(_)
        | Message::VectorAsk(_) => None,
    }
}
