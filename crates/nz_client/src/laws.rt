//! What a script that grows has to do with a whole one.

ghost use Rattle.std.specs.Prelude.{◌≡◌, ◌<◌, ℕ, List};
ghost use Rattle.std.specs.List.{AllByRecursion};
ghost use Rattle.nz_base.specs.declared.actor.Actor.TheVariants.{Client};
ghost use Rattle.nz_base.specs.declared.scenario.Request.{Request};
ghost use Rattle.nz_machine.specs.declared.event.Record.{Record};
ghost use Rattle.nz_machine.specs.rules.State.{Group};
ghost use Rattle.nz_machine.specs.runs.World.{state_after};
ghost use Rattle.nz_machine.specs.runs.Deployments.{IsLane};
ghost use Rattle.nz_client.specs.Growing.{HasOneMore};

/// A request that is not due changes no step: as long as a client has not counted as many ticks as the request waits, it
/// is in the same state, and its lane is a lane, whether or not the request is the last of its script.
pub fn requests_not_due_change_nothing()
    ensures state { (g later : Group) (c : ℕ) (request : Request) (J : List Record) → HasOneMore g later c request
        → (state_after g (Client c) J).ticks < request.wait → state_after later (Client c) J ≡ state_after g (Client c) J }
    ensures lane { (g later : Group) (c : ℕ) (request : Request) (J : List Record) → HasOneMore g later c request
        → (state_after g (Client c) J).ticks < request.wait → AllByRecursion (λ r. r.actor ≡ Client c) J
        → IsLane g (Client c) J → IsLane later (Client c) J }
{}
