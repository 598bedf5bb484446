//! What runs give beside their journals.
ghost use Rattle.std.specs.Prelude.{◌<◌, ◌≤◌, IfOk};
ghost use Rattle.nz_base.specs.declared.limits.TheConstants.{MAX_WORKERS};
ghost use Rattle.nz_machine.specs.runs.Schedule.{IsPlayable};

use crate::cases::Case;
use crate::report::{Stop, print_line};
use nz_audit::history_of;
use nz_base::Scenario;
use nz_edge::OpenGate;
use nz_machine::client_events_in;
use nz_run::{run, run_alone};
use nz_script::read;
use std::alloc::Global;
use std::sync::Wait;
use std::thread::Threads;

/// The scenario of a case that is one.
pub fn scenario_of(alloc: Global, input: &str) -> Result<Scenario, Stop>
    ensures { IfOk result IsPlayable }
{
    match read(alloc, input.as_bytes()) {
        Ok(scenario) => Ok(scenario),
        Err(_) => Err(Stop::Input),
    }
}

/// How many replicas a run by so many workers gives.
fn count_of<R: Threads + Wait + Sync>(
    rt: &R,
    alloc: Global,
    scenario: &Scenario,
    workers: u8,
) -> Result<usize, Stop>
    requires playable { IsPlayable scenario.now }
    requires workers { (0 < workers) × (workers ≤ MAX_WORKERS) }
{
    let played = run(rt, alloc, scenario, workers, &OpenGate::new())?;
    Ok(played.replicas.len())
}

/// How many replicas runs by 2, 4 and 16 workers give, which no clause says.
pub fn play_replicas<R: Print + Threads + Wait + Sync>(
    rt: &R,
    alloc: Global,
    case: &Case,
) -> Result<(), Stop> {
    let scenario = scenario_of(alloc, case.input.as_str())?;
    let by_two = count_of(rt, alloc, &scenario, 2)?;
    let by_four = count_of(rt, alloc, &scenario, 4)?;
    let by_16 = count_of(rt, alloc, &scenario, 16)?;
    let name = case.name.as_str();
    let line = format!(in alloc;
        "{name}, replicas that runs by 2, 4 and 16 workers give: {by_two}, {by_four}, {by_16}"
    )?;
    print_line(rt, line.as_str())
}

/// How long the history is that is read off the replicas, and the one that is found without them.
pub fn play_histories<R: Print>(rt: &R, alloc: Global, case: &Case) -> Result<(), Stop> {
    let scenario = scenario_of(alloc, case.input.as_str())?;
    let played = run_alone(alloc, &scenario)?;
    let events = client_events_in(alloc, &played.journal)?;
    let events = events.as_slice();
    let read = history_of(alloc, &played.journal, events, played.replicas.as_slice())?;
    let replayed = history_of(alloc, &played.journal, events, &[])?;
    let (with, without) = (read.len(), replayed.len());
    let name = case.name.as_str();
    let line = format!(in alloc; "{name}: {with} entries by the replicas, {without} without")?;
    print_line(rt, line.as_str())
}
