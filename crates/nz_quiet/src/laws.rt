//! The laws of a quiet cluster: its invariant, and the pace of its requests in ticks.

ghost use Rattle.std.specs.Prelude.{◌≤◌, ℕ, List};
ghost use Rattle.nz_base.specs.declared.limits.TheConstants.{MAX_TICKS};
ghost use Rattle.nz_base.specs.declared.scenario.Scenario.{Scenario};
ghost use Rattle.nz_machine.specs.declared.event.Record.{Record};
ghost use Rattle.nz_machine.specs.runs.Steps.{AreSteps};
ghost use Rattle.nz_machine.specs.runs.Schedule.{group_of, IsPlayable, InOrderTo, InOrder};
ghost use Rattle.nz_quiet.specs.Invariant.{IsQuietRun};
ghost use Rattle.nz_quiet.specs.Quiet.{IsQuiet, IsPrompt, timed_events};

/// A quiet scenario's run is quiet after each tick: all replicas have one log and the same early entries, each request has
/// its place by how long it waits, and nothing else is in flight.
pub fn runs_stay_quiet()
    ensures { (s : Scenario) → IsQuiet s → IsPlayable s → (t : ℕ) → t ≤ MAX_TICKS → (J : List Record) (order : InOrderTo s t J)
        → AreSteps (group_of s) J → IsQuietRun s t J order }
{}

/// In a quiet scenario each request that is sent at least 14 ticks before the last is accepted on the fast path after 5 or
/// 14 ticks, whatever the window and the numbers of proxies and clients.
pub fn prompt()
    ensures { (s : Scenario) (J : List Record) → IsPlayable s → IsQuiet s → InOrder s J → AreSteps (group_of s) J
        → IsPrompt s.ticks (timed_events (group_of s) J) }
{}
