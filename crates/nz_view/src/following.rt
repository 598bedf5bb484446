//! How a replica starts a view that another one leads.

ghost use Rattle.std.specs.Prelude.{◌≡◌, ◌==◌, [], IsFalse, OnOk};
ghost use Rattle.nz_base.specs.Cluster.{leader_of};
ghost use Rattle.nz_base.specs.declared.actor.Actor.TheVariants as actors;
ghost use Rattle.nz_msg.specs.Messages.{start_view};
ghost use Rattle.nz_msg.specs.declared.message.Message.TheVariants.{StartView};
ghost use Rattle.nz_machine.specs.rules.Adopting as adopting;
ghost use Rattle.nz_machine.specs.rules.Adopting.{after_start};
ghost use Rattle.nz_machine.specs.rules.Does.{DoesSilently, IsFromOther};
ghost use Rattle.nz_machine.specs.rules.Step.{replica_message};

use nz_base::{Actor, EntryList, NoMemory};
use nz_machine::ReplicaState;
use nz_msg::StartViewBody;
use std::mem;

/// Whether a view may start here: a later one, or the one of the view change.
fn may_start(state: &ReplicaState, view: u64) -> bool
    ensures { result ≡ adopting.may_start state.now.state view }
{
    state.is_up() && (state.view() < view || view == state.view() && state.is_changing())
}

/// The view starts with the leader's log.
fn start(state: &mut ReplicaState, body: &mut StartViewBody) -> Result<(), NoMemory>
    requires fits { start_view.fits body.old }
    requires other { IsFalse (leader_of state.old.f body.old.view == state.old.me) }
    ensures { let s = state.old in OnOk result (DoesSilently s state.new (after_start s.state body.old, [])) }
{
    let commit = state.commit().max(body.commit).min(body.entries.len());
    let log = mem::replace(&mut body.entries, EntryList::new(state.allocator()));
    state.adopt_log(body.view, log, commit)
}

/// The log of the view's leader is adopted.
#[tactic(auto, unfolding(nz_machine::specs::rules::Adopting::start_view_rule))]
fn start_view_rule(
    state: &mut ReplicaState,
    sender: u8,
    body: &mut StartViewBody,
) -> Result<(), NoMemory>
    requires from { IsFromOther state.old (actors.Replica sender) body.old.vector }
    requires fits { start_view.fits body.old }
    ensures { let s = state.old in OnOk result (DoesSilently s state.new (adopting.start_view_rule s.f s.me s.state sender body.old)) }
{
    if !may_start(state, body.view)
        || !state.is_leader_of(body.view, sender)
        || !state.merge_unless_stray(sender, &body.vector)
    {
        return Ok(());
    }
    start(state, body)
}

/// What a replica does with a start-view, which it takes from other replicas alone. It sends nothing. A log that is adopted
/// is taken out of the body.
pub fn on_start_view(
    state: &mut ReplicaState,
    from: Actor,
    body: &mut StartViewBody,
) -> Result<(), NoMemory>
    requires from { IsFromOther state.old from body.old.vector }
    requires fits { start_view.fits body.old }
    ensures { let s = state.old in OnOk result (DoesSilently s state.new (replica_message s.f s.me s.state from (StartView body.old))) }
{
    let Actor::Replica(sender) = from else {
        return Ok(());
    };
    start_view_rule(state, sender, body)
}
