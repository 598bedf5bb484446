//! The schedule of a quiet scenario, as one fold in each tick over each actor's own events.

ghost use Rattle.std.specs.Prelude.{◌≡◌, ◌<◌, ◌≤◌, ◌*◌, [], ℕ, suc, List, ◌++◌, map};
ghost use Rattle.nz_base.specs.Cluster.{replica_count};
ghost use Rattle.nz_base.specs.declared.actor.Actor.{Actor};
ghost use Rattle.nz_base.specs.declared.actor.Actor.TheVariants.{Replica};
ghost use Rattle.nz_base.specs.declared.limits.TheConstants.{UNITS_PER_TICK, MAX_TICKS};
ghost use Rattle.nz_base.specs.declared.scenario.Scenario.{Scenario};
ghost use Rattle.nz_machine.specs.declared.event.Record.{Record};
ghost use Rattle.nz_machine.specs.rules.State.{Group};
ghost use Rattle.nz_machine.specs.runs.Steps.{AreSteps};
ghost use Rattle.nz_machine.specs.runs.World.{state_after, IsMember, World};
ghost use Rattle.nz_machine.specs.runs.Schedule.{group_of, IsTick, InOrderTo, IsPlayable, due, tick_item, actors_of};
ghost use Rattle.nz_quiet.specs.Quiet.{IsQuiet};
ghost use Rattle.nz_quiet.specs.Folds.{delivery, sent_by, state_from, events_for, events_in, outs_from, flight_of, posted, outs_of, heard_by};
ghost use Rattle.nz_quiet.specs.Replicas.{bodies_of};
ghost use Rattle.nz_quiet.specs.Folds.{AreReadable, IsHeardTick};

/// Records in the order of the schedule, each with what its actor sends, are a run of the world.
pub fn records_in_order_are_a_run()
    ensures { (s : Scenario) (t : ℕ) (J : List Record) → IsPlayable s → InOrderTo s t J → AreSteps (group_of s) J → World (group_of s) J }
{}

/// In a tick of a quiet scenario every clock is due, and then what was sent in the tick before. An actor's state after
/// the tick is that before it, after its own events in their order.
pub fn a_tick_is_a_fold()
    ensures first { (s : Scenario) → IsQuiet s → due s 1 [] ≡ map (tick_item s 1) (actors_of s) }
    ensures due { (s : Scenario) (t : ℕ) (now older J : List Record) → IsQuiet s → IsTick s (suc t) now older J → InOrderTo s t older
        → due s (suc (suc t)) J ≡ map (tick_item s (suc (suc t))) (actors_of s) ++ map delivery (sent_by now) }
    ensures state { (s : Scenario) (g : Group) (a : Actor) (t : ℕ) (now older J : List Record) → IsTick s t now older J
        → state_after g a J ≡ state_from g a (state_after g a older) (events_for a (due s t older)) }
{}

/// What is sent in a tick is what the actors send on their own events.
pub fn flight_is_of_actors()
    ensures parcels { (g : Group) (now older : List Record) → AreSteps g (now ++ older) → sent_by now ≡ map posted (flight_of g now older) }
    ensures outs { (g : Group) (a : Actor) (now older : List Record)
        → outs_of a (flight_of g now older) ≡ outs_from g a (state_after g a older) (events_in a now) }
{}

/// In each tick of a quiet scenario an actor has its clock, and then hears what was sent to it in the tick before.
pub fn a_tick_is_heard()
    ensures first { (s : Scenario) (a : Actor) (next K : List Record) → IsQuiet s → IsPlayable s → IsMember (group_of s) a → IsTick s 1 next [] K
        → IsHeardTick (group_of s) a UNITS_PER_TICK [] (state_after (group_of s) a []) (state_after (group_of s) a K)
        (outs_of a (flight_of (group_of s) next [])) }
    ensures next { (s : Scenario) (a : Actor) (t : ℕ) (now older J next K : List Record) → IsQuiet s → IsPlayable s → IsMember (group_of s) a
        → suc (suc t) ≤ MAX_TICKS → IsTick s (suc t) now older J → InOrderTo s t older → IsTick s (suc (suc t)) next J K → AreSteps (group_of s) J
        → AreReadable (group_of s).f a (flight_of (group_of s) now older)
        → IsHeardTick (group_of s) a (UNITS_PER_TICK * suc (suc t)) (flight_of (group_of s) now older) (state_after (group_of s) a J)
        (state_after (group_of s) a K) (outs_of a (flight_of (group_of s) next J)) }
{}

/// In every run, what is in flight after some records has the same timed messages for each replica, in the same order.
pub fn requests_go_to_all_replicas()
    ensures { (g : Group) (now older : List Record) (r q : ℕ) → World g (now ++ older) → r < replica_count g.f → q < replica_count g.f
        → bodies_of (heard_by (Replica r) (flight_of g now older)) ≡ bodies_of (heard_by (Replica q) (flight_of g now older)) }
{}
