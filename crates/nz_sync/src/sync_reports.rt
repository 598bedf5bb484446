//! How far the logs of the others agree, and what the leader commits.

ghost use Rattle.std.specs.Prelude.{IsTrue};
ghost use Rattle.nz_msg.specs.declared.message.Message.TheVariants.{SyncReport};
ghost use Rattle.nz_machine.specs.rules.Does.{DoesSilently};
ghost use Rattle.nz_machine.specs.rules.Step.{replica_message, is_in_cluster};

use nz_base::Actor;
use nz_machine::ReplicaState;
use nz_msg::SyncReportBody;

/// What a replica does with a sync report, which it takes from replicas alone. It sends nothing: the leader notes how far
/// the replica's log agrees, and commits what f others report.
#[tactic(auto, unfolding(nz_machine::specs::rules::LogMods::sync_report_rule))]
pub fn on_sync_report(state: &mut ReplicaState, from: Actor, body: &SyncReportBody)
    requires { IsTrue (is_in_cluster state.old.f from) }
    ensures { let s = state.old in DoesSilently s state.new (replica_message s.f s.me s.state from (SyncReport body.now)) }
{
    let Actor::Replica(sender) = from else {
        return;
    };
    if state.leads_view() && body.view == state.view() && body.synced <= state.log().len() {
        state.note_report(sender, body.synced);
    }
}
