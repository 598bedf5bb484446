//! The laws of support, for every run that follows the rules; and that every run of the machine follows them.

ghost use Rattle.std.specs.Prelude.{◌≡◌, ◌≤◌, ◌<◌, ◌⊎◌, ◌↔◌, ℕ, Bool, List, [], ◌∷◌, ◌++◌, length, Some, IsTrue};
ghost use Rattle.nz_base.specs.declared.key.Entry.{Entry};
ghost use Rattle.nz_base.specs.declared.key.Key.{Key};
ghost use Rattle.nz_base.specs.Moments.{At};
ghost use Rattle.nz_base.specs.Cluster.{leader_of};
ghost use Rattle.nz_base.specs.Prefixes.{IsPrefix, Comparable};
ghost use Rattle.nz_base.specs.declared.actor.Actor.TheVariants.{Replica};
ghost use Rattle.nz_math.specs.Count.{count_below};
ghost use Rattle.nz_math.specs.Quorum.{group_size, slow_quorum, fast_quorum};
ghost use Rattle.nz_store.specs.Sequence.{replies};
ghost use Rattle.nz_log.specs.Synced.{synced_part};
ghost use Rattle.nz_machine.specs.declared.event.Record.{Record};
ghost use Rattle.nz_machine.specs.rules.State.{Group};
ghost use Rattle.nz_machine.specs.rules.Replicas.{commands, is_up};
ghost use Rattle.nz_machine.specs.runs.World.{state_after, World};
ghost use Rattle.nz_machine.specs.runs.OneHistory.{NoCollision, IsAccepted};
ghost use Rattle.nz_machine.specs.runs.Leading.{is_normal_in, leader_at, is_led, lead};
ghost use Rattle.nz_machine.specs.runs.Begun.{start};
ghost use Rattle.nz_machine.specs.runs.Committed.{IsAcceptedIn, Prefixes};
ghost use Rattle.nz_laws_commit.specs.Supports.{HadSynced, FastReplied, IsLedAt, Support, InLaterStarts};
ghost use Rattle.nz_laws_commit.specs.Machines.{GroupStates, machine_of, start_of};
ghost use Rattle.nz_laws_commit.specs.Does.{FollowsRules};
ghost use Rattle.nz_laws_commit.specs.Instance.{states_of};
ghost use Rattle.nz_laws_commit.specs.Present.{AreUpWithin};
ghost use Rattle.nz_laws_commit.specs.Starts.{IsMergedStart};
ghost use Rattle.nz_laws_commit.specs.Stable.{Stable, IsComparableWith};
ghost use Rattle.nz_laws_commit.specs.Example as example;

/// In every run of the machine with the premise on digests, whoever crashes and rejoins, each later view starts with
/// what was accepted in a view, and of two accepted prefixes one begins with the other.
pub fn prefixes()
    ensures { (g : Group) (J : List Record) → World g J → NoCollision g J → Prefixes g J }
{}

/// In every run of the machine a view above 0 starts with the merged log of the reports that it begins from, and with
/// nothing else; view 0 starts with the empty log.
pub fn views_start_with_merged_logs()
    ensures above { (g : Group) (J : List Record) (v : ℕ) (S : List Entry) → World g J → 0 < v
        → (start g v J ≡ Some S) ↔ IsMergedStart g v S J }
    ensures zero { (g : Group) (J : List Record) → start g 0 J ≡ Some [] }
{}

/// In every run of the machine each accepted prefix was accepted in some view.
pub fn accepted_prefixes_have_views()
    ensures { (g : Group) (J : List Record) (P : List Entry) → World g J → IsAccepted g P J → (v : ℕ) × IsAcceptedIn g v P J }
{}

/// In every run of the machine what a replica knew to be committed stays: each view above the replica's last one starts
/// with it, the same incarnation knows no less later, and any two replicas know comparable prefixes at whatever moments.
/// Only that it is comparable with what was accepted needs the premise on digests.
pub fn committed_prefixes_are_stable()
    ensures stable { (g : Group) (J : List Record) → World g J → Stable g J }
    ensures accepted { (g : Group) (J : List Record) → World g J → NoCollision g J → (A : List Entry) → IsAccepted g A J → IsComparableWith g J A }
{}

/// Every run of the machine follows the rules that the laws of support ask for.
pub fn rules_are_followed()
    ensures { (g : Group) (J : List Record) → World g J → FollowsRules (states_of g) J }
{}

/// The log that the leader of a view leads with only grows.
pub fn leader_log_grows()
    ensures { (g : Group) (newer J : List Record) (v : ℕ) → World g (newer ++ J) → IsPrefix (lead g v J) (lead g v (newer ++ J)) }
{}

/// What was accepted in a view is a prefix of the log that the view's leader leads with, however far the run goes on.
pub fn accepted_prefixes_are_led()
    ensures { (g : Group) (J : List Record) (v : ℕ) (P : List Entry) → World g J → IsAcceptedIn g v P J → IsPrefix P (lead g v J) }
{}

/// The answers of a leader are those of one store that executes its log.
pub fn leader_executes_its_log()
    ensures { (g : Group) (J : List Record) (v : ℕ) → World g J → IsTrue (is_led g v J)
        → (leader_at g v J).results ≡ replies (commands (lead g v J)) }
{}

/// A replica that is up was never in normal operation, in whatever incarnation, in a view above the one in which it is.
pub fn views_of_a_replica_rise()
    ensures { (g : Group) (J K : List Record) (r v : ℕ) → World g J → At J K → IsTrue (is_up (state_after g (Replica r) J).status)
        → IsTrue (is_normal_in v (state_after g (Replica r) K)) → v ≤ (state_after g (Replica r) J).view }
{}

/// Where all replicas are up after the run, in no view above this one, nothing was accepted in a view above it.
pub fn nothing_is_accepted_above()
    ensures { (g : Group) (J : List Record) (top v : ℕ) (P : List Entry) → World g J → AreUpWithin top g J → IsAcceptedIn g v P J → v ≤ top }
{}

/// The synced part of the log of a replica in normal operation is a prefix of the log that the leader of its
/// view leads with.
pub fn synced_parts_are_the_leaders()
    ensures { (g : Group) (J : List Record) (r v : ℕ) → World g J → IsTrue (is_normal_in v (state_after g (Replica r) J))
        → IsPrefix (synced_part (state_after g (Replica r) J).log) (lead g v J) }
{}

/// Each later view begins with what is supported in a view, also where the support is complete only after that view
/// has begun; and what is supported stays so as the run goes on.
pub fn supported_stays<R>()
    ensures starts { (g : GroupStates R) (J : List R) (v : ℕ) (P : List Key) → FollowsRules g J
        → Support (machine_of g) v P J → InLaterStarts (machine_of g) J v P }
    ensures later { (g : GroupStates R) (J K : List R) (v : ℕ) (P : List Key) → FollowsRules g J → At J K
        → Support (machine_of g) v P K → Support (machine_of g) v P J }
{}

/// Of two lists of keys that are supported, in whatever views, one begins with the other.
pub fn supports_are_comparable<R>()
    ensures { (g : GroupStates R) (J : List R) (v w : ℕ) (P Q : List Key) → FollowsRules g J
        → Support (machine_of g) v P J → Support (machine_of g) w Q J → Comparable P Q }
{}

/// A quorum, counted by a test on the replicas, supports a prefix of the log that the leader had at K: a
/// slow one where each other member had as many entries synced, a fast one where each other member had
/// so or could send a fast-reply for the prefix with the leader's vector at K.
pub fn quorums_support<R>()
    ensures slow { (g : GroupStates R) (J K : List R) (v : ℕ) (P : List Key) (test : ℕ → Bool) → FollowsRules g J
        → IsLedAt (machine_of g) v P K J → slow_quorum g.f ≤ count_below (group_size g.f) test
        → ((y : ℕ) → IsTrue (test y) → (y ≡ leader_of g.f v) ⊎ HadSynced (machine_of g) v y (length P) J)
        → Support (machine_of g) v P J }
    ensures fast { (g : GroupStates R) (J K : List R) (v : ℕ) (P : List Key) (test : ℕ → Bool) → FollowsRules g J
        → IsLedAt (machine_of g) v P K J → fast_quorum g.f ≤ count_below (group_size g.f) test
        → ((y : ℕ) → IsTrue (test y) → (y ≡ leader_of g.f v) ⊎ (HadSynced (machine_of g) v y (length P) J
        ⊎ FastReplied (machine_of g) v y P (g.state (leader_of g.f v) K).vector J))
        → Support (machine_of g) v P J }
{}

/// The rules contradict nothing: a run follows them in which a key is supported in view 0, and view 1 has
/// begun with it.
pub fn a_run_follows_the_rules()
    ensures rules { FollowsRules example.group example.run }
    ensures support { Support (machine_of example.group) 0 (example.key ∷ []) example.run }
    ensures begun { start_of example.group 1 example.run ≡ Some (example.key ∷ []) }
{}
