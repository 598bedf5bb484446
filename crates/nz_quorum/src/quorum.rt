//! Whether a leader's reply has a quorum, and which of those that have one decides.

ghost use Rattle.std.specs.Prelude.{◌≡◌, ℕ, ◌==◌, ◌||◌, ◌&&◌, IsTrue, IfSome};
ghost use Rattle.std.specs.List.{list_any, AllByRecursion};
ghost use Rattle.std.specs.Option.{option_copied};
ghost use Rattle.nz_base.specs.Cluster.{leader_of};
ghost use Rattle.nz_math.specs.Count.{is_in};
ghost use Rattle.nz_machine.specs.rules.Quorums.{view_of, is_of_leader};
ghost use Rattle.nz_quorum.specs.Tallies as tallies;
ghost use Rattle.nz_quorum.specs.Tallies.{replica_of, IsOfCluster, quorum_size, lead_of};
ghost use Rattle.nz_quorum.specs.Support as support;
ghost use Rattle.nz_quorum.specs.Support.{least_so_far};

use nz_base::Cluster;
use nz_machine::Reply;
use nz_math::ReplicaSet;
use nz_msg::Path;

fn view_of_reply(reply: &Reply) -> u64
    ensures { result ≡ view_of reply.now }
{
    match reply {
        Reply::Fast { view, .. } | Reply::Slow { view, .. } => *view,
    }
}

fn replica_of_reply(reply: &Reply) -> u8
    ensures { result ≡ replica_of reply.now }
{
    match reply {
        Reply::Fast { replica, .. } | Reply::Slow { replica, .. } => *replica,
    }
}

/// Whether it is a fast reply of the leader of its view, with an answer.
fn is_lead(cluster: Cluster, reply: &Reply) -> bool
    ensures { result ≡ is_of_leader cluster reply.now }
{
    match reply {
        Reply::Fast {
            replica,
            view,
            answer,
            ..
        } => *replica == cluster.leader(*view) && answer.is_some(),
        Reply::Slow { .. } => false,
    }
}

/// Whether the sender of the reply supports a leader's reply in a quorum of this path.
fn supports(path: Path, lead: &Reply, reply: &Reply) -> bool
    ensures { result ≡ support.supports path lead.now reply.now }
{
    match (lead, reply) {
        (Reply::Fast { view: v, .. }, Reply::Slow { view: w, .. }) => w == v,
        (
            Reply::Fast {
                view: v,
                digest: d,
                vector: u,
                ..
            },
            Reply::Fast {
                view: w,
                digest: e,
                vector: t,
                ..
            },
        ) => path == Path::Fast && w == v && e == d && t == u,
        (Reply::Slow { .. }, _) => false,
    }
}

/// The leader, and the senders of the replies that support its reply.
fn supporters(cluster: Cluster, replies: &[Reply], path: Path, lead: &Reply) -> ReplicaSet
    requires { AllByRecursion (IsOfCluster cluster) replies.now }
    ensures { (x : ℕ) → is_in result x ≡ ((leader_of cluster (view_of lead.now) == x)
        || list_any (λ r. (replica_of r == x) && support.supports path lead.now r) replies.now) }
{
    let mut set = ReplicaSet::new();
    set.insert(cluster.leader(view_of_reply(lead)));
    for reply in replies {
        if supports(path, lead, reply) {
            set.insert(replica_of_reply(reply));
        }
    }
    set
}

fn size_of(cluster: Cluster, path: Path) -> u8
    ensures { result ≡ quorum_size path cluster }
{
    match path {
        Path::Fast => cluster.fast(),
        Path::Slow => cluster.slow(),
    }
}

/// Whether it is a leader's reply that has a quorum of this path.
fn has_quorum(cluster: Cluster, replies: &[Reply], path: Path, lead: &Reply) -> bool
    requires { AllByRecursion (IsOfCluster cluster) replies.now }
    ensures { result ≡ tallies.has_quorum path cluster replies.now lead.now }
{
    is_lead(cluster, lead)
        && supporters(cluster, replies, path, lead).count() >= size_of(cluster, path)
}

/// The one of the lesser view, else the first.
fn of_lesser_view<'a>(best: Option<&'a Reply>, reply: &'a Reply) -> &'a Reply
    ensures { result.now ≡ least_so_far (option_copied best.entry) reply.now }
{
    match best {
        Some(best) if view_of_reply(best) <= view_of_reply(reply) => best,
        _ => reply,
    }
}

/// Of the replies that have a quorum of this path the first of the least view.
pub fn lead(cluster: Cluster, replies: &[Reply], path: Path) -> Option<&Reply>
    requires { AllByRecursion (IsOfCluster cluster) replies.now }
    ensures lead { option_copied result ≡ lead_of path cluster replies.now }
    ensures answer { IfSome result (λ reply. IsTrue (is_of_leader cluster reply.now)) }
{
    let mut best = None;
    for reply in replies {
        if has_quorum(cluster, replies, path, reply) {
            best = Some(of_lesser_view(best, reply));
        }
    }
    best
}
