//! A run of one worker that is watched tick by tick, so that no record has to stay in memory.

ghost use Rattle.std.specs.Prelude.{◌≡◌, ◌+◌, ◌<◌, MatchBool, IfOk, IfSome, OnOk};
ghost use Rattle.nz_machine.specs.runs.Schedule.{group_of, IsPlayable};
ghost use Rattle.nz_run.specs.Playing.{IsAtEnd, IsNextTick, scenario_of, tick_of, run_of};
ghost use Rattle.nz_run.specs.declared.playing.Playing.{Playing as PlayingModel};
ghost use Rattle.nz_top.specs.Called.{journal_of};
ghost use Rattle.nz_top.specs.Watching.{HasObserved, IsWatched, IsPrinted};

use crate::keeping::Unkept;
use crate::reports::Report;
use nz_base::{Blob, NoMemory, Scenario};
use nz_machine::Notes;
use nz_observe::Observer;
use nz_run::Playing;
use std::alloc::Global;

/// A run that is played, and what was seen of it.
#[derive(Drop)]
pub struct Watched {
    playing: Playing,
    notes: Notes,
    observer: Observer,
}

/// Looks at the replica of a report that is of one, at the end of the tick that was played last.
fn look(
    alloc: Global,
    report: &Report<'_>,
    playing: &Playing,
    observer: &mut Observer,
) -> Result<(), NoMemory>
    requires { IsAtEnd playing.now }
    ensures { OnOk result ((before : PlayingModel) → IsNextTick before playing.now
        → HasObserved report.now (group_of (scenario_of before)) (tick_of before) (run_of before) observer.old
        → HasObserved report.now (group_of (scenario_of playing.now)) (tick_of playing.now) (run_of playing.now) observer.new) }
{
    match report {
        Report::Peek { replica, key } => observer.look(
            alloc,
            playing.replica(*replica),
            key.as_slice(),
            playing.tick(),
        ),
        Report::Text
        | Report::Trace
        | Report::Story
        | Report::Summary
        | Report::Locks
        | Report::Pace => Ok(()),
    }
}

/// Plays and watches the next tick. False exactly where the last one was watched.
fn watch_tick(alloc: Global, report: &Report<'_>, watched: &mut Watched) -> Result<bool, NoMemory>
    requires { IsWatched report.now watched.old }
    ensures watched { OnOk result (IsWatched report.now watched.new) }
    ensures scenario { OnOk result (scenario_of watched.new.playing ≡ scenario_of watched.old.playing) }
    ensures ticks { IfOk result (λ more. let ticks = (scenario_of watched.old.playing).ticks in MatchBool more
        ((tick_of watched.new.playing ≡ tick_of watched.old.playing + 1) × (tick_of watched.old.playing < ticks))
        (tick_of watched.new.playing ≡ ticks)) }
{
    if !watched.playing.play_tick()? {
        return Ok(false);
    }
    watched.playing.note(alloc, &mut watched.notes)?;
    look(alloc, report, &watched.playing, &mut watched.observer)?;
    Ok(true)
}

/// Plays and watches all ticks of the scenario.
fn watch_all(alloc: Global, report: &Report<'_>, scenario: &Scenario) -> Result<Watched, NoMemory>
    requires { IsPlayable scenario.now }
    ensures watched { IfOk result (IsWatched report.now) }
    ensures scenario { IfOk result (λ watched. scenario_of watched.playing ≡ scenario.now) }
    ensures last { IfOk result (λ watched. tick_of watched.playing ≡ scenario.now.ticks) }
{
    let mut watched = Watched {
        playing: Playing::new(alloc, scenario, false)?,
        notes: Notes::new(alloc, scenario)?,
        observer: Observer::new(alloc),
    };
    'ticks: while watch_tick(alloc, report, &mut watched)? {}
    Ok(watched)
}

/// What is printed of the run of one worker, with no record kept. None where the report needs the records.
pub fn print_unkept(
    alloc: Global,
    report: &Report<'_>,
    scenario: &Scenario,
) -> Result<Option<(Blob, Unkept)>, NoMemory>
    requires { IsPlayable scenario.now }
    ensures { IfOk result (λ o. IfSome o (λ printed. IsPrinted report.now scenario.now (journal_of printed.1) printed.0)) }
{
    let Watched {
        playing,
        notes,
        observer,
    } = watch_all(alloc, report, scenario)?;
    let events = notes.into_events();
    let replicas = playing.replicas();
    let Some(bytes) = report.print_events(alloc, scenario, events.as_slice(), observer, replicas)?
    else {
        return Ok(None);
    };
    let (scenario, records) = playing.into_forgotten();
    Ok(Some((bytes, Unkept { scenario, records })))
}
