//! The restart of a replica, and the timer by which it asks again.

ghost use Rattle.std.specs.Prelude.{IsTrue, OnOk};
ghost use Rattle.nz_machine.specs.rules.Replicas.{is_rejoining};
ghost use Rattle.nz_machine.specs.rules.Rejoining as rejoining;
ghost use Rattle.nz_machine.specs.rules.Rejoining.{restart_rule};
ghost use Rattle.nz_machine.specs.rules.Does.{Does};

use super::phases::ask_views;
use nz_base::NoMemory;
use nz_machine::{Outbox, Phase, ReplicaState};

/// A restart begins the next incarnation. Only a replica that is down restarts.
#[tactic(auto, unfolding(nz_machine::specs::rules::Rejoining::restart_rule))]
pub fn restart(state: &mut ReplicaState, nonce: u64, sends: &mut Outbox) -> Result<(), NoMemory>
    ensures { let s = state.old in OnOk result (Does s state.new sends.old sends.new (restart_rule s.f s.me s.state nonce)) }
{
    if !state.is_down() {
        return Ok(());
    }
    state.restart(nonce);
    state.send_to_others(&state.vector_ask(), sends)
}

/// In each phase what was asked is asked again; from the third the replica goes back to the second.
fn ask_again(state: &mut ReplicaState, sends: &mut Outbox) -> Result<(), NoMemory>
    ensures { let s = state.old in OnOk result (Does s state.new sends.old sends.new (rejoining.ask_again s.state.rejoin.phase s.f s.me s.state)) }
{
    match state.phase() {
        Phase::Vectors => state.send_to_others(&state.vector_ask(), sends),
        Phase::Views => state.send_to_others(&state.rejoin_ask(), sends),
        Phase::Log => ask_views(state, sends),
    }
}

/// After each period a replica that rejoins asks again.
pub fn rejoin_timer(state: &mut ReplicaState, sends: &mut Outbox) -> Result<(), NoMemory>
    requires { IsTrue (is_rejoining state.old.state.status) }
    ensures { let s = state.old in OnOk result (Does s state.new sends.old sends.new (rejoining.rejoin_timer s.f s.me s.state)) }
{
    if state.count_rejoining() {
        return ask_again(state, sends);
    }
    Ok(())
}
