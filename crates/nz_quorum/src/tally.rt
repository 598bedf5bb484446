//! The replies to a request, and what they decide.

ghost use Rattle.std.specs.Prelude.{◌≡◌, ℕ, [], Some, IsSome, IfSome, OnOk, OnErr};
ghost use Rattle.std.specs.Option.{option_map};
ghost use Rattle.nz_base.specs.Cluster.{replica_count};
ghost use Rattle.std.specs.List.{list_any, position};
ghost use Rattle.nz_machine.specs.rules.Quorums.{Chosen, decision, answer_in, with_note, reply_eq};
ghost use Rattle.nz_quorum.specs.Tallies.{TallyData, IsOfCluster};

use super::equal::same_reply;
use super::quorum::lead;
use nz_base::{Cluster, List, NoMemory};
use nz_machine::{Reply, ReplyList};
use nz_msg::Path;
use nz_store::Answer;
use std::alloc::Global;
use std::marker::Model;

/// How a request was decided: the leader's reply that has the quorum, and the answer in it.
#[derive(Clone, Copy)]
pub struct Decision<'a> {
    pub path: Path,
    pub reply: &'a Reply,
    pub answer: &'a Answer,
}

/// The replies to one request.
#[derive(Drop)]
pub struct Tally {
    cluster: Cluster,
    replies: ReplyList,
}

impl Model for Tally {
    ghost use Rattle.std.specs.List.{AllByRecursion};
    ghost use Rattle.nz_quorum.specs.Tallies.{TallyData, IsOfCluster};

    ghost Value = { TallyData };

    ghost view = { λ t. record { f = t.cluster; replies = t.replies } };

    ghost invariant = { λ t. AllByRecursion (IsOfCluster t.cluster) t.replies };
}

impl Tally {
    /// No replies.
    pub fn new(alloc: Global, cluster: Cluster) -> Tally
        ensures { result ≡ record { f = cluster; replies = [] } }
    {
        Tally {
            cluster,
            replies: List::new(alloc),
        }
    }

    /// Notes the reply, once.
    pub fn note(&mut self, reply: Reply) -> Result<(), NoMemory>
        requires { IsOfCluster self.old.f reply }
        ensures ok { OnOk result (self.new ≡ record self.old { replies = with_note self.old.replies reply }) }
        ensures err { OnErr result (self.new ≡ self.old) }
    {
        if self.is_noted(&reply) {
            return Ok(());
        }
        self.replies.push(reply)
    }

    pub fn is_noted(&self, reply: &Reply) -> bool
        ensures { result ≡ list_any (reply_eq reply.now) self.now.replies }
    {
        self.replies
            .as_slice()
            .iter()
            .any(|other| same_reply(reply, other))
    }

    /// The place of the reply among those that were noted.
    pub fn place_of(&self, reply: &Reply) -> Option<usize>
        ensures { result ≡ position (reply_eq reply.now) self.now.replies }
    {
        self.replies
            .as_slice()
            .iter()
            .position(|other| same_reply(reply, other))
    }

    /// What the replies decide: by a fast quorum where there is one, else by a slow one.
    #[tactic(auto, unfolding(nz_machine::specs::rules::Quorums::decision))]
    pub fn decide(&self) -> Option<Decision<'_>>
        ensures chosen { option_map {U = Chosen} (λ d. record { path = d.path; reply = d.reply.now }) result ≡ decision self.now.f self.now.replies }
        ensures answer { IfSome result (λ d. answer_in d.reply.now ≡ Some d.answer.now) }
    {
        let replies = self.replies.as_slice();
        match lead(self.cluster, replies, Path::Fast) {
            Some(reply) => decided(Path::Fast, reply),
            None => decided(Path::Slow, lead(self.cluster, replies, Path::Slow)?),
        }
    }
}

/// The decision by a reply that has an answer.
fn decided(path: Path, reply: &Reply) -> Option<Decision<'_>>
    requires { IsSome (answer_in reply.now) }
    ensures chosen { option_map {U = Chosen} (λ d. record { path = d.path; reply = d.reply.now }) result ≡ Some (record { path = path; reply = reply.now }) }
    ensures answer { IfSome result (λ d. answer_in d.reply.now ≡ Some d.answer.now) }
{
    match reply {
        Reply::Fast {
            answer: Some(answer),
            ..
        } => Some(Decision {
            path,
            reply,
            answer,
        }),
        _ => None,
    }
}
