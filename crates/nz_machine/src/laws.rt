//! Laws of the rules, each the contract of a function with nothing to do.
ghost use Rattle.std.specs.Prelude.{◌≡◌, ◌↔◌, ℕ, List, ◌+◌, ◌≤◌, ◌<◌, ◌^◌, ◌==◌, ◌++◌, length, min, IsTrue, IsFalse};
ghost use Rattle.nz_buffers.specs.Buffers.{released, held_back};
ghost use Rattle.nz_base.specs.Cluster.{replica_count};
ghost use Rattle.nz_base.specs.declared.scenario.Scenario.{Scenario};
ghost use Rattle.nz_base.specs.declared.limits.TheConstants.{MAX_ENTRIES, MAX_CLOCK, MAX_PROXY};
ghost use Rattle.nz_msg.specs.declared.message.TimedBody.{TimedBody};
ghost use Rattle.nz_msg.specs.declared.message.LogModBody.{LogModBody};
ghost use Rattle.nz_msg.specs.declared.message.FetchBody.{FetchBody};
ghost use Rattle.nz_msg.specs.declared.message.FetchReplyBody.{FetchReplyBody};
ghost use Rattle.nz_msg.specs.declared.message.SyncReportBody.{SyncReportBody};
ghost use Rattle.nz_msg.specs.declared.message.ViewAskBody.{ViewAskBody};
ghost use Rattle.nz_msg.specs.declared.message.ViewChangeBody.{ViewChangeBody};
ghost use Rattle.nz_msg.specs.declared.message.StartViewBody.{StartViewBody};
ghost use Rattle.nz_msg.specs.declared.message.VectorAskBody.{VectorAskBody};
ghost use Rattle.nz_msg.specs.declared.message.VectorTellBody.{VectorTellBody};
ghost use Rattle.nz_msg.specs.declared.message.RejoinAskBody.{RejoinAskBody};
ghost use Rattle.nz_msg.specs.declared.message.RejoinTellBody.{RejoinTellBody};
ghost use Rattle.nz_msg.specs.declared.message.StateAskBody.{StateAskBody};
ghost use Rattle.nz_msg.specs.declared.message.StateTellBody.{StateTellBody};
ghost use Rattle.nz_msg.specs.Messages.{
  timed,
  log_mod,
  fetch_reply,
  view_ask,
  view_change,
  start_view,
  vector_tell,
  rejoin_ask,
  rejoin_tell,
  state_ask,
  state_tell,
};
ghost use Rattle.nz_machine.specs.declared.event.Parcel.{Parcel};
ghost use Rattle.nz_machine.specs.declared.event.Record.{Record};
ghost use Rattle.nz_machine.specs.runs.Events.{events};
ghost use Rattle.nz_machine.specs.rules.State.{ReplicaData, Group};
ghost use Rattle.nz_machine.specs.journals.EventNotes.{events_at, events_alone};
ghost use Rattle.nz_machine.specs.runs.World.{World, sent_in, Has, IsMember};
ghost use Rattle.nz_machine.specs.runs.Schedule.{group_of, Scheduled, IsPlayable};
ghost use Rattle.nz_machine.specs.runs.Steps.{AreSteps};
ghost use Rattle.nz_machine.specs.runs.Deployments.{IsDeployment};
ghost use Rattle.nz_machine.specs.rules.Facts.{HasFacts};
ghost use Rattle.nz_machine.specs.rules.Replicas.{first_replica, is_normal};
ghost use Rattle.nz_machine.specs.rules.Requests.{request_rule};
ghost use Rattle.nz_machine.specs.rules.Releases.{release_rule};
ghost use Rattle.nz_machine.specs.rules.LogMods.{log_mod_rule, fetch_rule, fetch_reply_rule, sync_report_rule};
ghost use Rattle.nz_machine.specs.rules.Views.{alarm_rule, view_ask_rule};
ghost use Rattle.nz_machine.specs.rules.Adopting.{start_view_rule};
ghost use Rattle.nz_machine.specs.rules.Begins.{view_change_rule};
ghost use Rattle.nz_machine.specs.rules.Rejoining.{
  crash_rule,
  restart_rule,
  vector_ask_rule,
  vector_tell_rule,
  rejoin_ask_rule,
  rejoin_tell_rule,
  state_ask_rule,
  state_tell_rule,
};
ghost use Rattle.nz_machine.specs.rules.Step.{tick_rule};

/// A replica's state has the facts at the start, and each rule keeps them.
pub fn facts_are_kept()
    ensures first { (f me : ℕ) → HasFacts f me (first_replica f) }
    ensures request { (f me : ℕ) (s : ReplicaData) (proxy : ℕ) (body : TimedBody) → HasFacts f me s
        → proxy ≤ MAX_PROXY → timed.fits body → HasFacts f me (request_rule f me s proxy body).0 }
    ensures release { (f me : ℕ) (s : ReplicaData) (clock : ℕ) → HasFacts f me s
        → HasFacts f me (release_rule f me s clock).0 }
    ensures log_mod { (f me : ℕ) (s : ReplicaData) (sender : ℕ) (body : LogModBody) → HasFacts f me s
        → log_mod.fits body → length body.vector ≡ replica_count f → HasFacts f me (log_mod_rule f me s sender body).0 }
    ensures fetch { (f me : ℕ) (s : ReplicaData) (sender : ℕ) (body : FetchBody) → HasFacts f me s
        → HasFacts f me (fetch_rule f me s sender body).0 }
    ensures fetch_reply { (f me : ℕ) (s : ReplicaData) (sender : ℕ) (body : FetchReplyBody) → HasFacts f me s
        → fetch_reply.fits body → HasFacts f me (fetch_reply_rule f me s sender body).0 }
    ensures sync_report { (f me : ℕ) (s : ReplicaData) (sender : ℕ) (body : SyncReportBody) → HasFacts f me s
        → HasFacts f me (sync_report_rule f me s sender body).0 }
    ensures tick { (f me : ℕ) (s : ReplicaData) (clock : ℕ) → HasFacts f me s → HasFacts f me (tick_rule f me s clock).0 }
    ensures alarm { (f me : ℕ) (s : ReplicaData) → HasFacts f me s → HasFacts f me (alarm_rule f me s).0 }
    ensures crash { (f me : ℕ) (s : ReplicaData) → HasFacts f me (crash_rule f s).0 }
    ensures restart { (f me : ℕ) (s : ReplicaData) (nonce : ℕ) → nonce < 2 ^ 64 → HasFacts f me s
        → HasFacts f me (restart_rule f me s nonce).0 }
    ensures view_ask { (f me : ℕ) (s : ReplicaData) (body : ViewAskBody) → HasFacts f me s
        → view_ask.fits body → HasFacts f me (view_ask_rule f me s body).0 }
    ensures view_change { (f me : ℕ) (s : ReplicaData) (sender : ℕ) (body : ViewChangeBody) → HasFacts f me s
        → sender < replica_count f → IsFalse (sender == me) → view_change.fits body → length body.vector ≡ replica_count f
        → HasFacts f me (view_change_rule f me s sender body).0 }
    ensures start_view { (f me : ℕ) (s : ReplicaData) (sender : ℕ) (body : StartViewBody) → HasFacts f me s
        → IsFalse (sender == me) → start_view.fits body → length body.vector ≡ replica_count f
        → HasFacts f me (start_view_rule f me s sender body).0 }
    ensures vector_ask { (f me : ℕ) (s : ReplicaData) (sender : ℕ) (body : VectorAskBody) → HasFacts f me s
        → HasFacts f me (vector_ask_rule s sender body).0 }
    ensures vector_tell { (f me : ℕ) (s : ReplicaData) (sender : ℕ) (body : VectorTellBody) → HasFacts f me s
        → sender < replica_count f → vector_tell.fits body → length body.vector ≡ replica_count f
        → HasFacts f me (vector_tell_rule f me s sender body).0 }
    ensures rejoin_ask { (f me : ℕ) (s : ReplicaData) (sender : ℕ) (body : RejoinAskBody) → HasFacts f me s
        → rejoin_ask.fits body → length body.vector ≡ replica_count f → HasFacts f me (rejoin_ask_rule me s sender body).0 }
    ensures rejoin_tell { (f me : ℕ) (s : ReplicaData) (sender : ℕ) (body : RejoinTellBody) → HasFacts f me s
        → sender < replica_count f → rejoin_tell.fits body → length body.vector ≡ replica_count f
        → HasFacts f me (rejoin_tell_rule f me s sender body).0 }
    ensures state_ask { (f me : ℕ) (s : ReplicaData) (sender : ℕ) (body : StateAskBody) → HasFacts f me s
        → state_ask.fits body → length body.vector ≡ replica_count f → HasFacts f me (state_ask_rule f me s sender body).0 }
    ensures state_tell { (f me : ℕ) (s : ReplicaData) (sender : ℕ) (body : StateTellBody) → HasFacts f me s
        → IsFalse (sender == me) → state_tell.fits body → length body.vector ≡ replica_count f
        → HasFacts f me (state_tell_rule f me s sender body).0 }
{}

/// Where the log has room for what is due, a replica in normal operation releases all of it.
pub fn due_entries_are_released()
    ensures log { (f me : ℕ) (s : ReplicaData) (clock : ℕ) → HasFacts f me s → IsTrue (is_normal s.status)
        → length s.log.entries + length (released s.early (min clock MAX_CLOCK)) ≤ MAX_ENTRIES
        → (release_rule f me s clock).0.log.entries ≡ s.log.entries ++ released s.early (min clock MAX_CLOCK) }
    ensures early { (f me : ℕ) (s : ReplicaData) (clock : ℕ) → HasFacts f me s → IsTrue (is_normal s.status)
        → length s.log.entries + length (released s.early (min clock MAX_CLOCK)) ≤ MAX_ENTRIES
        → (release_rule f me s clock).0.early ≡ held_back s.early (min clock MAX_CLOCK) }
{}

/// In every run each parcel is for an actor of the group.
pub fn receivers_take_part()
    ensures { (g : Group) (J : List Record) (parcel : Parcel) → World g J → Has (sent_in J) parcel → IsMember g parcel.to }
{}

/// The events that are read off the records of a run are those of its clients.
pub fn events_are_read()
    ensures { (g : Group) (J : List Record) → events_alone (events_at g J) ≡ events g J }
{}

/// The records of a schedule of the scenario, each with what its actor sends, are a run of the world.
pub fn scheduled_steps_are_a_run()
    ensures { (s : Scenario) (J : List Record) → IsPlayable s → Scheduled s J → AreSteps (group_of s) J → World (group_of s) J }
{}

/// What the nodes of a deployment do is a run of the machine, if each of them keeps to the machine by itself, links
/// deliver only what was sent, and no nonce comes twice. And it asks no more than that: each run is such a deployment.
pub fn lanes_are_a_run()
    ensures { (g : Group) (J : List Record) → IsDeployment g J ↔ World g J }
{}
