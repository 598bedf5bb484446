//! How the leader of a view collects view-changes, and begins the view.

ghost use Rattle.std.specs.Prelude.{◌≡◌, ◌≤◌, ◌<◌, IsTrue, OnOk};
ghost use Rattle.nz_base.specs.Cluster.{leader_of};
ghost use Rattle.nz_base.specs.declared.actor.Actor.TheVariants as actors;
ghost use Rattle.nz_base.specs.declared.limits.TheConstants.{MAX_REPLICA};
ghost use Rattle.nz_msg.specs.Messages.{view_change};
ghost use Rattle.nz_msg.specs.declared.message.Message.TheVariants.{ViewChange};
ghost use Rattle.nz_machine.specs.rules.Replicas.{is_changing, is_up, leads, ◌and_then◌};
ghost use Rattle.nz_machine.specs.rules.Views as views;
ghost use Rattle.nz_machine.specs.rules.Begins as begins;
ghost use Rattle.nz_machine.specs.rules.Does.{Does, IsFromOther};
ghost use Rattle.nz_machine.specs.rules.Step.{replica_message};

use super::entering::enter_later;
use nz_base::{Actor, NoMemory};
use nz_machine::{Outbox, ReplicaState};
use nz_msg::ViewChangeBody;

/// The view begins with the merged log, where a log has room for it, and the others get a start-view.
#[tactic(auto, unfolding(nz_machine::specs::rules::Begins::begin))]
fn begin(state: &mut ReplicaState, sends: &mut Outbox) -> Result<(), NoMemory>
    requires changing { IsTrue (is_changing state.old.state.status) }
    requires leads { IsTrue (leads state.old.f state.old.me state.old.state) }
    ensures { let s = state.old in OnOk result (Does s state.new sends.old sends.new (begins.begin s.f s.me s.state)) }
{
    if !state.begin_view()? {
        return Ok(());
    }
    let start = state.start_view()?;
    state.send_to_others(&start, sends)
}

/// The report is collected. With exactly f of them beside its own the leader begins the view.
fn collect(
    state: &mut ReplicaState,
    sender: u8,
    body: &mut ViewChangeBody,
    sends: &mut Outbox,
) -> Result<(), NoMemory>
    requires from { IsFromOther state.old (actors.Replica sender) body.old.vector }
    requires fits { view_change.fits body.old }
    requires changing { IsTrue (is_changing state.old.state.status) }
    requires leads { IsTrue (leads state.old.f state.old.me state.old.state) }
    ensures { let s = state.old in OnOk result (Does s state.new sends.old sends.new (begins.collect s.f s.me sender body.old s.state)) }
{
    if state.keep_report(sender, body)? != usize::from(state.cluster().f()) {
        return Ok(());
    }
    begin(state, sends)
}

/// In the view change the report is collected. Where the view has begun already, its sender gets a start-view.
fn hear_report(
    state: &mut ReplicaState,
    sender: u8,
    body: &mut ViewChangeBody,
    sends: &mut Outbox,
) -> Result<(), NoMemory>
    requires from { IsFromOther state.old (actors.Replica sender) body.old.vector }
    requires address { sender ≤ MAX_REPLICA }
    requires fits { view_change.fits body.old }
    requires leads { IsTrue (leads state.old.f state.old.me state.old.state) }
    ensures { let s = state.old in OnOk result (Does s state.new sends.old sends.new (begins.hear_report s.f s.me sender body.old s.state)) }
{
    if state.is_changing() {
        return collect(state, sender, body, sends);
    }
    let start = state.start_view()?;
    state.send_to(sender, &start, sends)
}

/// The view is entered if it is later, and the report is collected or answered.
fn enter_and_hear_report(
    state: &mut ReplicaState,
    sender: u8,
    body: &mut ViewChangeBody,
    sends: &mut Outbox,
) -> Result<(), NoMemory>
    requires from { IsFromOther state.old (actors.Replica sender) body.old.vector }
    requires address { sender ≤ MAX_REPLICA }
    requires fits { view_change.fits body.old }
    requires up { IsTrue (is_up state.old.state.status) }
    requires low { state.old.state.view ≤ body.old.view }
    requires leads { leader_of state.old.f body.old.view ≡ state.old.me }
    ensures { let s = state.old in
        OnOk result (Does s state.new sends.old sends.new
        (views.enter_later s.f s.me body.old.view s.state and_then begins.hear_report s.f s.me sender body.old)) }
{
    enter_later(state, body.view, sends)?;
    hear_report(state, sender, body, sends)
}

/// Whether the replica leads the view, and the view is its own or a later one.
fn may_lead(state: &ReplicaState, view: u64) -> bool
    ensures { result ≡ begins.may_lead state.now.f state.now.me state.now.state view }
{
    state.is_up() && state.would_lead(view) && state.view() <= view
}

/// What a replica does with a view-change, which it takes from other replicas alone. The leader of the report's view takes
/// it, unless the leader has entered a later view. The log of a report that is collected is taken out of the body.
#[tactic(auto, unfolding(nz_machine::specs::rules::Begins::view_change_rule))]
pub fn on_view_change(
    state: &mut ReplicaState,
    from: Actor,
    body: &mut ViewChangeBody,
    sends: &mut Outbox,
) -> Result<(), NoMemory>
    requires from { IsFromOther state.old from body.old.vector }
    requires fits { view_change.fits body.old }
    ensures { let s = state.old in OnOk result (Does s state.new sends.old sends.new (replica_message s.f s.me s.state from (ViewChange body.old))) }
{
    let Actor::Replica(sender) = from else {
        return Ok(());
    };
    if !may_lead(state, body.view) || !state.merge_unless_stray(sender, &body.vector) {
        return Ok(());
    }
    state.drop_strays();
    enter_and_hear_report(state, sender, body, sends)
}
