//! The story of a run, by one pass over its records.

ghost use Rattle.std.specs.Prelude.{◌≡◌, ◌∷◌, ◌++◌, [], ◌+◌, ◌<◌, ℕ, List, Some, true, length, slice_get, IfOk, OnOk};
ghost use Rattle.nz_base.specs.Cluster.{replica_count};
ghost use Rattle.nz_base.specs.declared.actor.Actor.TheVariants as actors;
ghost use Rattle.nz_machine.specs.journals.Journals.{group_in, run_in};
ghost use Rattle.nz_machine.specs.runs.Schedule.{group_of};
ghost use Rattle.nz_machine.specs.rules.State.{Group};
ghost use Rattle.nz_machine.specs.runs.World.{World};
ghost use Rattle.nz_machine.specs.declared.event.Record.{Record as RecordModel};
ghost use Rattle.nz_replay.specs.Runs.{run_up_to};
ghost use Rattle.nz_story.specs.Courses.{IsWatched, AreWatched, IsFollowed};
ghost use Rattle.nz_story.specs.States.{now_text};
ghost use Rattle.nz_story.specs.Story.{lines_under, part_of, record_part, story};

use super::fates::Sent;
use super::heads::{put_events, put_head};
use super::known::Known;
use nz_base::{Actor, Cluster, NoMemory, Scenario};
use nz_machine::{Clients, Event, Journal, Record};
use nz_replay::replay_one;
use nz_replica::Replica;
use nz_script::put;
use std::alloc::Global;

/// A replica after some records, and what is known of it.
#[derive(Drop)]
struct Watched {
    core: Replica,
    known: Known,
}

/// What is known of a run after some records.
#[derive(Drop)]
struct Course {
    clients: Clients,
    replicas: Vec<Watched>,
    sent: Sent,
}

impl Watched {
    /// The replica before the first record.
    fn new(alloc: Global, cluster: Cluster, number: u8) -> Result<Watched, NoMemory>
        requires { number < replica_count cluster }
        ensures { IfOk result (λ watched. (g : Group) → g.f ≡ cluster → IsWatched g [] number watched) }
    {
        let core = Replica::new(alloc, cluster, number)?;
        let known = Known::new(alloc, core.state())?;
        Ok(Watched { core, known })
    }

    /// The replica takes the next record, which is its own. Writes what became of it.
    fn put_now(
        &mut self,
        alloc: Global,
        out: &mut Vec<u8>,
        number: u8,
        next: &Record,
    ) -> Result<(), NoMemory>
        requires live { self.old.core.live ≡ true }
        ensures watched { OnOk result ((g : Group) (J : List RecordModel) → IsWatched g J number self.old → IsWatched g (next.now ∷ J) number self.new) }
        ensures written { OnOk result ((g : Group) (J : List RecordModel) → IsWatched g J number self.old
            → out.new.items ≡ out.old.items ++ now_text g (actors.Replica number) next.now J) }
    {
        replay_one(&mut self.core, number, next)?;
        self.known.put_now(alloc, out, self.core.state())?;
        Ok(())
    }
}

/// All replicas before the first record.
fn first_replicas(alloc: Global, cluster: Cluster) -> Result<Vec<Watched>, NoMemory>
    ensures count { IfOk result (λ replicas. length replicas.items ≡ replica_count cluster) }
    ensures first { IfOk result (λ replicas. (g : Group) → g.f ≡ cluster → AreWatched g [] replicas.items) }
{
    let mut replicas = Vec::new(alloc);
    for number in 0..cluster.n() {
        replicas.push(Watched::new(alloc, cluster, number)?)?;
    }
    Ok(replicas)
}

impl Course {
    /// Before the first record.
    fn new(alloc: Global, scenario: &Scenario) -> Result<Course, NoMemory>
        ensures { IfOk result (IsFollowed scenario.now []) }
    {
        let clients = Clients::new(alloc, scenario)?;
        let replicas = first_replicas(alloc, scenario.cluster)?;
        let sent = Sent::new(alloc, scenario)?;
        Ok(Course {
            clients,
            replicas,
            sent,
        })
    }
}

/// The replicas take the record at a place. Writes what became of its replica.
fn put_replica(
    alloc: Global,
    out: &mut Vec<u8>,
    journal: &Journal,
    place: u32,
    next: &Record,
    replicas: &mut Vec<Watched>,
) -> Result<(), NoMemory>
    requires at { slice_get journal.now.records place ≡ Some next.now }
    requires number { (m : ℕ) → next.now.actor ≡ actors.Replica m → m < length replicas.old.items }
    requires watched { AreWatched (group_in journal.now) (run_up_to journal.now place) replicas.old.items }
    ensures count { length replicas.new.items ≡ length replicas.old.items }
    ensures watched { OnOk result (AreWatched (group_in journal.now) (run_up_to journal.now (place + 1)) replicas.new.items) }
    ensures written { OnOk result (out.new.items
        ≡ out.old.items ++ now_text (group_in journal.now) next.now.actor next.now (run_up_to journal.now place)) }
{
    match next.actor {
        Actor::Replica(number) => replicas[number as usize].put_now(alloc, out, number, next),
        Actor::Proxy(_) | Actor::Client(_) => Ok(()),
    }
}

/// Writes the lines under the head of the record at a place.
fn put_lines(
    alloc: Global,
    out: &mut Vec<u8>,
    journal: &Journal,
    place: u32,
    next: &Record,
    course: &mut Course,
) -> Result<(), NoMemory>
    requires world { World (group_in journal.now) (run_in journal.now) }
    requires at { slice_get journal.now.records place ≡ Some next.now }
    requires followed { IsFollowed journal.now.scenario (run_up_to journal.now place) course.old }
    ensures followed { OnOk result (IsFollowed journal.now.scenario (run_up_to journal.now (place + 1)) course.new) }
    ensures written { OnOk result (out.new.items ≡ out.old.items ++ lines_under journal.now.scenario next.now (run_up_to journal.now place)) }
{
    let scenario = &journal.scenario;
    let events = course.clients.read(alloc, scenario, next)?;
    put_events(out, events.as_slice())?;
    put_replica(alloc, out, journal, place, next, &mut course.replicas)?;
    let sends = next.sends.as_slice();
    course.sent.put_sends(out, scenario, next.tick, sends)?;
    Ok(())
}

/// Writes the head of the record and these lines under it.
fn put_part(out: &mut Vec<u8>, next: &Record, lines: &[u8]) -> Result<(), NoMemory>
    ensures { OnOk result (out.new.items ≡ out.old.items ++ part_of next.now lines.now) }
{
    if lines.is_empty() && matches!(next.event, Event::Tick(_)) {
        return Ok(());
    }
    put_head(out, next)?;
    put(out, lines)
}

/// Writes the part of the record at a place. The lines under its head are put together in `lines`.
fn put_record(
    alloc: Global,
    out: &mut Vec<u8>,
    lines: &mut Vec<u8>,
    journal: &Journal,
    place: u32,
    next: &Record,
    course: &mut Course,
) -> Result<(), NoMemory>
    requires world { World (group_in journal.now) (run_in journal.now) }
    requires at { slice_get journal.now.records place ≡ Some next.now }
    requires followed { IsFollowed journal.now.scenario (run_up_to journal.now place) course.old }
    ensures followed { OnOk result (IsFollowed journal.now.scenario (run_up_to journal.now (place + 1)) course.new) }
    ensures written { OnOk result (out.new.items ≡ out.old.items ++ record_part journal.now.scenario next.now (run_up_to journal.now place)) }
{
    lines.clear();
    put_lines(alloc, lines, journal, place, next, course)?;
    put_part(out, next, lines.as_slice())?;
    Ok(())
}

/// Writes the story of the journal's run, by one replay of all its replicas.
pub fn put_story(alloc: Global, out: &mut Vec<u8>, journal: &Journal) -> Result<(), NoMemory>
    requires { World (group_in journal.now) (run_in journal.now) }
    ensures { OnOk result (out.new.items ≡ out.old.items ++ story journal.now.scenario (run_in journal.now)) }
{
    let mut course = Course::new(alloc, &journal.scenario)?;
    let mut lines = Vec::new(alloc);
    for place in 0..journal.records.len() {
        let next = journal.records.get(place);
        let next = next.as_record();
        put_record(alloc, out, &mut lines, journal, place, next, &mut course)?;
    }
    Ok(())
}
