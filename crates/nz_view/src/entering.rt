//! How a replica leaves its view for a later one: at a view-ask, when a timer ends, and at an alarm.

ghost use Rattle.std.specs.Prelude.{◌≡◌, IsTrue, OnOk};
ghost use Rattle.nz_msg.specs.Fields as fields;
ghost use Rattle.nz_msg.specs.Messages.{view_ask};
ghost use Rattle.nz_msg.specs.declared.message.Message.TheVariants.{ViewAsk};
ghost use Rattle.nz_machine.specs.rules.Replicas.{is_changing, is_normal};
ghost use Rattle.nz_machine.specs.rules.Views as views;
ghost use Rattle.nz_machine.specs.rules.Views.{alarm_rule};
ghost use Rattle.nz_machine.specs.rules.Does.{Does};
ghost use Rattle.nz_machine.specs.rules.Step.{replica_message};

use nz_base::{Actor, NoMemory, VIEW_ASK_TICKS, VIEW_TIMEOUT_TICKS};
use nz_machine::{Outbox, ReplicaState};
use nz_msg::ViewAskBody;

/// The view is entered where it is later than the replica's own.
pub fn enter_later(state: &mut ReplicaState, view: u64, sends: &mut Outbox) -> Result<(), NoMemory>
    requires { fields.view.fits view }
    ensures { let s = state.old in OnOk result (Does s state.new sends.old sends.new (views.enter_later s.f s.me view s.state)) }
{
    if view <= state.view() {
        return Ok(());
    }
    state.enter_view(view, sends)
}

/// What a replica does with a view-ask, which it takes from replicas alone. If it is up, it enters the view that is asked
/// for, where it is later.
#[tactic(auto, unfolding(nz_machine::specs::rules::Views::view_ask_rule))]
pub fn on_view_ask(
    state: &mut ReplicaState,
    from: Actor,
    body: &ViewAskBody,
    sends: &mut Outbox,
) -> Result<(), NoMemory>
    requires { view_ask.fits body.now }
    ensures { let s = state.old in OnOk result (Does s state.new sends.old sends.new (replica_message s.f s.me s.state from (ViewAsk body.now))) }
{
    let Actor::Replica(_) = from else {
        return Ok(());
    };
    if !state.is_up() {
        return Ok(());
    }
    enter_later(state, body.view, sends)
}

/// The next view is entered, where there is one.
fn enter_next(state: &mut ReplicaState, sends: &mut Outbox) -> Result<(), NoMemory>
    ensures { let s = state.old in OnOk result (Does s state.new sends.old sends.new (views.enter_next s.f s.me s.state)) }
{
    if !state.has_next_view() {
        return Ok(());
    }
    let next = state.view() + 1;
    state.enter_view(next, sends)
}

/// A follower in normal operation counts the ticks since it heard from its leader.
pub fn quiet_timer(state: &mut ReplicaState, sends: &mut Outbox) -> Result<(), NoMemory>
    requires { IsTrue (is_normal state.old.state.status) }
    ensures { let s = state.old in OnOk result (Does s state.new sends.old sends.new (views.quiet_timer s.f s.me s.state)) }
{
    if state.count_quiet() {
        return enter_next(state, sends);
    }
    Ok(())
}

/// In a view change: at the end of the count it begins anew, and the next view is entered, where there is one. On
/// the way the replica asks again now and then.
pub fn change_timer(state: &mut ReplicaState, sends: &mut Outbox) -> Result<(), NoMemory>
    requires { IsTrue (is_changing state.old.state.status) }
    ensures { let s = state.old in OnOk result (Does s state.new sends.old sends.new (views.change_timer s.f s.me s.state)) }
{
    let since = state.count_changing();
    if since == VIEW_TIMEOUT_TICKS {
        return enter_next(state, sends);
    }
    if since % VIEW_ASK_TICKS == 0 {
        return state.call_for_view(sends);
    }
    Ok(())
}

/// What a replica does when it learns that the leader is lost.
#[tactic(auto, unfolding(nz_machine::specs::rules::Views::alarm_rule))]
pub fn on_alarm(state: &mut ReplicaState, sends: &mut Outbox) -> Result<(), NoMemory>
    ensures { let s = state.old in OnOk result (Does s state.new sends.old sends.new (alarm_rule s.f s.me s.state)) }
{
    if !state.is_up() {
        return Ok(());
    }
    enter_next(state, sends)
}
