//! The answers of a replica in normal operation to one that rejoins.

ghost use Rattle.std.specs.Prelude.{◌<◌, OnOk};
ghost use Rattle.nz_base.specs.Actor.{HasAddress};
ghost use Rattle.nz_msg.specs.Messages.{vector_ask, rejoin_ask, state_ask};
ghost use Rattle.nz_msg.specs.declared.message.Message.TheVariants.{VectorAsk, RejoinAsk, StateAsk};
ghost use Rattle.nz_machine.specs.rules.Does.{Does, IsFromMember};
ghost use Rattle.nz_machine.specs.rules.Step.{replica_message};

use nz_base::{Actor, NoMemory};
use nz_machine::{Outbox, ReplicaState};
use nz_msg::{RejoinAskBody, StateAskBody, VectorAskBody};

/// What a replica does with a vector-ask, which it takes from replicas alone. It changes nothing: in normal operation it
/// tells its vector.
#[tactic(auto, unfolding(nz_machine::specs::rules::Rejoining::vector_ask_rule))]
pub fn on_vector_ask(
    state: &ReplicaState,
    from: Actor,
    body: &VectorAskBody,
    sends: &mut Outbox,
) -> Result<(), NoMemory>
    requires from { HasAddress from }
    requires fits { vector_ask.fits body.now }
    ensures { let s = state.now in OnOk result (Does s s sends.old sends.new (replica_message s.f s.me s.state from (VectorAsk body.now))) }
{
    let Actor::Replica(sender) = from else {
        return Ok(());
    };
    if !state.is_normal() {
        return Ok(());
    }
    state.send_to(sender, &state.vector_tell(body.nonce), sends)
}

/// What a replica does with a rejoin-ask, which it takes from replicas alone. In normal operation it merges the vector of
/// who rejoins, and tells its view with its own.
#[tactic(auto, unfolding(nz_machine::specs::rules::Rejoining::rejoin_ask_rule))]
pub fn on_rejoin_ask(
    state: &mut ReplicaState,
    from: Actor,
    body: &RejoinAskBody,
    sends: &mut Outbox,
) -> Result<(), NoMemory>
    requires from { IsFromMember state.old from body.now.vector }
    requires fits { rejoin_ask.fits body.now }
    ensures { let s = state.old in OnOk result (Does s state.new sends.old sends.new (replica_message s.f s.me s.state from (RejoinAsk body.now))) }
{
    let Actor::Replica(sender) = from else {
        return Ok(());
    };
    if !state.is_normal() || !state.merge_unless_stray(sender, &body.vector) {
        return Ok(());
    }
    state.send_to(sender, &state.rejoin_tell(body.nonce), sends)
}

/// What a replica does with a state-ask, which it takes from replicas alone. The leader tells its log, in the view that is
/// asked for or a later one.
#[tactic(auto, unfolding(nz_machine::specs::rules::Rejoining::state_ask_rule))]
pub fn on_state_ask(
    state: &mut ReplicaState,
    from: Actor,
    body: &StateAskBody,
    sends: &mut Outbox,
) -> Result<(), NoMemory>
    requires from { IsFromMember state.old from body.now.vector }
    requires fits { state_ask.fits body.now }
    ensures { let s = state.old in OnOk result (Does s state.new sends.old sends.new (replica_message s.f s.me s.state from (StateAsk body.now))) }
{
    let Actor::Replica(sender) = from else {
        return Ok(());
    };
    if !state.leads_view()
        || body.view > state.view()
        || !state.merge_unless_stray(sender, &body.vector)
    {
        return Ok(());
    }
    let tell = state.state_tell(body.nonce)?;
    state.send_to(sender, &tell, sends)
}
