//! What a client of a quiet run does in a tick.

ghost use Rattle.std.specs.Prelude.{◌≤◌, ◌<◌, ◌++◌, ℕ, List, length};
ghost use Rattle.std.specs.List.{AllByRecursion};
ghost use Rattle.nz_base.specs.declared.actor.Actor.{Actor};
ghost use Rattle.nz_base.specs.declared.actor.Actor.TheVariants.{Client};
ghost use Rattle.nz_base.specs.declared.key.Entry.{Entry};
ghost use Rattle.nz_machine.specs.declared.event.Record.{Record};
ghost use Rattle.nz_machine.specs.rules.State.{ClientData, Group, Out};
ghost use Rattle.nz_machine.specs.rules.Clients.{last_tick};
ghost use Rattle.nz_machine.specs.runs.Events.{sent_by};
ghost use Rattle.nz_machine.specs.rules.Step.{script_of, tick_step};
ghost use Rattle.nz_machine.specs.runs.World.{state_after};
ghost use Rattle.nz_quiet.specs.Folds.{heard_by, state_heard, outs_heard};
ghost use Rattle.nz_quiet.specs.Words.{Word};
ghost use Rattle.nz_quiet.specs.Invariant.{IsQuietAt};
ghost use Rattle.nz_quiet.specs.ClientTicks.{AreYoung, MayAnswer, IsClientAfter, seen_heard};

/// In a tick a client none of whose requests has waited longer than 13 ticks repeats none: exactly the open requests that
/// are answered leave, each with its acceptance, and the new ones are open and sent.
pub fn clients_do_their_part()
    ensures { (g : Group) (c : ℕ) (s : ClientData) (clock : ℕ) (ws : List Word) → s.ticks < last_tick → AreYoung s → s.sent ≤ length (script_of g c)
        → AllByRecursion (MayAnswer s) ws → let t = tick_step g (Client c) s clock in
        IsClientAfter g c s ws (state_heard g (Client c) t.0 ws) (t.1 ++ outs_heard g (Client c) t.0 ws)
        (sent_by c (script_of g c) s t.0 ++ seen_heard g c t.0 ws) }
{}

/// What is in flight to a client of a quiet run is what it may hear, and none of its requests has waited longer than 13
/// ticks.
pub fn clients_hear_what_they_may()
    ensures heard { (g : Group) (t : ℕ) (L E : List Entry) (flight : List (Actor × Out)) (J : List Record) → IsQuietAt g t L E flight J
        → (c : ℕ) → c < length g.scripts → AllByRecursion (MayAnswer (state_after g (Client c) J)) (heard_by (Client c) flight) }
    ensures young { (g : Group) (t : ℕ) (L E : List Entry) (flight : List (Actor × Out)) (J : List Record) → IsQuietAt g t L E flight J
        → (c : ℕ) → c < length g.scripts → AreYoung (state_after g (Client c) J) }
{}
