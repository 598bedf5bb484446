//! What a replica of a quiet run does in a tick.

ghost use Rattle.std.specs.Prelude.{◌≡◌, ◌<◌, ◌≤◌, ◌+◌, ◌*◌, suc, Some, true, [], ℕ, List, length};
ghost use Rattle.std.specs.List.{AllByRecursion};
ghost use Rattle.std.specs.Map.{lookup};
ghost use Rattle.nz_base.specs.Key.{id_eq, id_of};
ghost use Rattle.nz_base.specs.Log.{keys_of, AreRising, HaveOwnIds};
ghost use Rattle.nz_base.specs.Cluster.{replica_count};
ghost use Rattle.nz_base.specs.declared.actor.Actor.{Actor};
ghost use Rattle.nz_base.specs.declared.actor.Actor.TheVariants.{Replica};
ghost use Rattle.nz_base.specs.declared.key.Entry.{Entry};
ghost use Rattle.nz_base.specs.declared.limits.TheConstants.{MAX_ENTRIES, UNITS_PER_TICK};
ghost use Rattle.nz_base.specs.declared.scenario.Request.{Request};
ghost use Rattle.nz_msg.specs.declared.message.LogModBody.{LogModBody};
ghost use Rattle.nz_msg.specs.declared.message.Message.{Message};
ghost use Rattle.nz_buffers.specs.Buffers.{is_due, released};
ghost use Rattle.nz_machine.specs.declared.data.Origin.{Origin};
ghost use Rattle.nz_machine.specs.rules.State.{ReplicaData, Group, Out};
ghost use Rattle.nz_machine.specs.rules.LogMods.{log_mod_rule};
ghost use Rattle.nz_machine.specs.rules.Releases.{releases};
ghost use Rattle.nz_machine.specs.rules.Step.{tick_step};
ghost use Rattle.nz_machine.specs.runs.World.{Has, IsGroup, request_count};
ghost use Rattle.nz_quiet.specs.Folds.{state_heard, outs_heard};
ghost use Rattle.nz_quiet.specs.Replicas.{MayTick, IsTicked, MayHear, AreHeard, HasHeard, IsRepliedTo, IsReplyOf, IsQuietFollower, IsOwnLogMod, IsTakenCalmly};
ghost use Rattle.nz_quiet.specs.Requests.{OfScript};

/// A tick sends a fast reply for each entry that it releases, and no other.
pub fn releases_are_replied()
    ensures each { (f me : ℕ) (s : ReplicaData) (es : List Entry) (e : Entry) (origin : Origin) → AreRising (keys_of es)
        → length s.log.entries + length (released es s.clock) ≤ MAX_ENTRIES → Has es e → is_due s.clock e ≡ true
        → lookup (id_eq (id_of e.key)) s.origin ≡ Some origin → IsRepliedTo (releases f me s es).1 origin.proxy (id_of e.key) }
    ensures only { (f me : ℕ) (s : ReplicaData) (es : List Entry) (x : Out) → Has (releases f me s es).1 x → IsReplyOf es s.clock x }
{}

/// At its clock a quiet replica releases what is due, replies to each entry of it and to no other, and keeps the rest in
/// early. The leader sends a log modification to each other replica.
pub fn a_replica_ticks()
    ensures { (g : Group) (t r : ℕ) (L E : List Entry) (s : ReplicaData) → MayTick g t r L E s
        → IsTicked g t r L E s (tick_step g (Replica r) s (UNITS_PER_TICK * suc t)).0 (tick_step g (Replica r) s (UNITS_PER_TICK * suc t)).1 }
{}

/// After its clock a quiet replica puts the requests that it hears into early. It takes log modifications with keys of its
/// own log, which end its count of quiet ticks, and replies slowly only for entries of the log of the tick before.
pub fn a_replica_hears()
    ensures { (g : Group) (t r : ℕ) (L E now : List Entry) (s : ReplicaData) (hs : List (Actor × Message)) → IsGroup g → r < replica_count g.f
        → MayHear g t r L E now s → AreHeard g t r L E hs
        → HasHeard g t r L E now s hs (state_heard g (Replica r) s hs) (outs_heard g (Replica r) s hs) }
{}

/// A log modification with keys of the follower's own log changes its sync point, its commit and its count of quiet ticks
/// alone.
pub fn log_mods_are_taken_calmly()
    ensures { (f me : ℕ) (s : ReplicaData) (b : LogModBody) → IsQuietFollower f me s → IsOwnLogMod f s b → IsTakenCalmly s b (log_mod_rule f me s 0 b) }
{}

/// Entries with ids of their own are at most as many as there are requests.
pub fn entries_are_few()
    ensures { (ss : List (List Request)) (es : List Entry) → AllByRecursion (OfScript ss) es → HaveOwnIds (keys_of es) → length es ≤ request_count ss }
{}
