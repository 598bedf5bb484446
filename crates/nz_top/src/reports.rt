//! What is reported of a run.
ghost use Rattle.std.specs.Prelude.{◌≡◌, ◌++◌, List, IfOk, IfSome, IfNone, codes};
ghost use Rattle.nz_machine.specs.declared.event.Record.{Record};
ghost use Rattle.nz_machine.specs.declared.journal.Journal.{Journal as JournalModel};
ghost use Rattle.nz_machine.specs.runs.History.{history};
ghost use Rattle.nz_machine.specs.journals.Journals.{group_in, run_in, executed_entries};
ghost use Rattle.nz_machine.specs.rules.State.{Group};
ghost use Rattle.nz_machine.specs.journals.EventNotes.{events_at};
ghost use Rattle.nz_machine.specs.runs.World.{World};
ghost use Rattle.nz_replica.specs.Models.{AreCores};
ghost use Rattle.nz_story.specs.Story as stories;
ghost use Rattle.nz_text.specs.Text as texts;
ghost use Rattle.nz_quiet.specs.Pace.{pace_text};
ghost use Rattle.nz_top.specs.Calls.{IsRun};
ghost use Rattle.nz_locks.specs.Clean.{IsFirstFoul};
ghost use Rattle.nz_top.specs.declared.reports.Report.TheVariants as reports;
ghost use Rattle.nz_locks.specs.Tenures.{hold_lines};
ghost use Rattle.nz_top.specs.Reports.{printed_by, Admits};
ghost use Rattle.nz_top.specs.Watching.{HasObserved};

use nz_audit::{first_history, history_of};
use nz_base::{Actor, Blob, Cluster, Fault, Id, NoMemory, Scenario, VIEW_TIMEOUT_TICKS};
use nz_locks::{first_foul, tenure_lines};
use nz_machine::{EventAt, Journal, client_events_in};
use nz_observe::{Observer, observe};
use nz_quiet::put_pace;
use nz_replica::Replica;
use nz_story::put_story;
use nz_text::{summary, text, trace};
use std::alloc::Global;
use std::marker::Model;

/// A key that is lent, a word of a call. Contracts see its bytes.
#[derive(Drop)]
pub struct KeyRef<'a> {
    bytes: &'a [u8],
}

impl<'a> Model for KeyRef<'a> {
    ghost use Rattle.std.specs.Prelude.{ℕ, List};

    ghost Value = { List ℕ };

    ghost view = { λ k. k.bytes.now };
}

impl<'a> KeyRef<'a> {
    pub fn new(bytes: &'a [u8]) -> KeyRef<'a>
        ensures { result ≡ bytes.now }
    {
        KeyRef { bytes }
    }

    pub fn as_slice(&self) -> &[u8]
        ensures { result.now ≡ self.now }
    {
        self.bytes
    }
}

/// What is reported of a run.
#[derive(Drop)]
pub enum Report<'a> {
    /// The text of the run.
    Text,
    /// A line for each record, and the text after that.
    Trace,
    /// What each record changed and sent, and the text after that.
    Story,
    /// Counts.
    Summary,
    /// A line for each tenure of a lock, and the text after that. No command of the scenario may be foul.
    Locks,
    /// What is observed of the replica with this number, and the text after that: a line for each tick after which it knows
    /// more or fewer entries to be committed, or answers a read of the key otherwise from them.
    Peek { replica: u8, key: KeyRef<'a> },
    /// How many ticks the requests took.
    Pace,
}

/// The head, a line of its own, and the text.
fn headed(alloc: Global, head: Blob, text: Blob) -> Result<Blob, NoMemory>
    ensures { IfOk result (λ bytes. bytes ≡ head ++ (codes "text\n" ++ text)) }
{
    let mut bytes = head.into_vec(alloc)?;
    bytes.extend_from_slice(b"text\n")?;
    bytes.extend_from_slice(text.as_slice())?;
    Ok(Blob::from_vec(bytes))
}

/// The text of the run.
fn run_text(alloc: Global, journal: &Journal, replicas: &[Replica]) -> Result<Blob, NoMemory>
    requires run { World (group_in journal.now) (run_in journal.now) }
    requires replicas { AreCores (group_in journal.now) (run_in journal.now) replicas.now }
    ensures { IfOk result (λ bytes. bytes ≡ texts.text (group_in journal.now) (run_in journal.now)) }
{
    let events = client_events_in(alloc, journal)?;
    let history = history_of(alloc, journal, events.as_slice(), replicas)?;
    text(alloc, events.as_slice(), &history)
}

/// The summary of the run.
fn run_summary(alloc: Global, journal: &Journal, replicas: &[Replica]) -> Result<Blob, NoMemory>
    requires run { World (group_in journal.now) (run_in journal.now) }
    requires replicas { AreCores (group_in journal.now) (run_in journal.now) replicas.now }
    ensures { IfOk result (λ bytes. bytes ≡ texts.summary (group_in journal.now) (run_in journal.now)) }
{
    let events = client_events_in(alloc, journal)?;
    let history = history_of(alloc, journal, events.as_slice(), replicas)?;
    summary(alloc, events.as_slice(), &history)
}

/// The story of the run.
fn story(alloc: Global, journal: &Journal) -> Result<Blob, NoMemory>
    requires { World (group_in journal.now) (run_in journal.now) }
    ensures { IfOk result (λ bytes. bytes ≡ stories.story journal.now.scenario (run_in journal.now)) }
{
    let mut bytes = Vec::new(alloc);
    put_story(alloc, &mut bytes, journal)?;
    Ok(Blob::from_vec(bytes))
}

/// How many ticks the requests of the run with these events took.
fn pace(alloc: Global, events: &[EventAt]) -> Result<Blob, NoMemory>
    ensures { IfOk result (λ bytes. (g : Group) (J : List Record) → events.now ≡ events_at g J → bytes ≡ pace_text g J) }
{
    let mut bytes = Vec::new(alloc);
    put_pace(alloc, &mut bytes, events)?;
    Ok(Blob::from_vec(bytes))
}

/// The text of a run that stayed in its first view, None where it may not have. The events of the clients are given, and
/// so are the replicas after the last record.
fn first_text(
    alloc: Global,
    cluster: Cluster,
    events: &[EventAt],
    replicas: &[Replica],
) -> Result<Option<Blob>, NoMemory>
    ensures { IfOk result (λ o. IfSome o (λ bytes. (g : Group) (J : List Record) → g.f ≡ cluster → World g J
        → events.now ≡ events_at g J → AreCores g J replicas.now → bytes ≡ texts.text g J)) }
{
    match first_history(alloc, cluster, events, replicas)? {
        Some(history) => Ok(Some(text(alloc, events, &history)?)),
        None => Ok(None),
    }
}

/// The summary of such a run.
fn first_summary(
    alloc: Global,
    cluster: Cluster,
    events: &[EventAt],
    replicas: &[Replica],
) -> Result<Option<Blob>, NoMemory>
    ensures { IfOk result (λ o. IfSome o (λ bytes. (g : Group) (J : List Record) → g.f ≡ cluster → World g J
        → events.now ≡ events_at g J → AreCores g J replicas.now → bytes ≡ texts.summary g J)) }
{
    match first_history(alloc, cluster, events, replicas)? {
        Some(history) => Ok(Some(summary(alloc, events, &history)?)),
        None => Ok(None),
    }
}

/// The tenures of the locks of such a run, and its text.
fn first_tenures(
    alloc: Global,
    cluster: Cluster,
    events: &[EventAt],
    replicas: &[Replica],
) -> Result<Option<Blob>, NoMemory>
    ensures { IfOk result (λ o. IfSome o (λ bytes. (g : Group) (J : List Record) → g.f ≡ cluster → World g J
        → events.now ≡ events_at g J → AreCores g J replicas.now
        → bytes ≡ hold_lines (executed_entries (history g J)) ++ (codes "text\n" ++ texts.text g J))) }
{
    let Some(history) = first_history(alloc, cluster, events, replicas)? else {
        return Ok(None);
    };
    let head = tenure_lines(alloc, &history)?;
    Ok(Some(headed(alloc, head, text(alloc, events, &history)?)?))
}

/// Whether the block may keep the leader of the first view from a replica for as long as a replica waits for it.
fn may_hide(leader: Actor, from: Option<Actor>, to: Option<Actor>, first: u32, last: u32) -> bool {
    let ticks = last.saturating_sub(first).saturating_add(2);
    from.is_none_or(|from| from.is(&leader))
        && to.is_none_or(|to| matches!(to, Actor::Replica(_)))
        && ticks >= u32::from(VIEW_TIMEOUT_TICKS)
}

/// Whether replicas may leave the first view, or one of them may not be up at the end: the leader crashes or is hidden, a
/// replica is alarmed, or there are more crashes of replicas than restarts.
fn may_leave_first_view(scenario: &Scenario) -> bool {
    let leader = Actor::Replica(scenario.cluster.leader(0));
    let mut down: u32 = 0;
    for fault in scenario.faults.as_slice() {
        match fault {
            Fault::Alarm { tick, .. } if *tick <= scenario.ticks => return true,
            Fault::Crash { actor, tick } if actor.is(&leader) && *tick <= scenario.ticks => {
                return true;
            }
            Fault::Block {
                from,
                to,
                first,
                last,
            } if may_hide(leader, *from, *to, *first, *last) => return true,
            Fault::Crash {
                actor: Actor::Replica(_),
                ..
            } => down = down.saturating_add(1),
            Fault::Restart {
                actor: Actor::Replica(_),
                ..
            } => down = down.saturating_sub(1),
            _ => {}
        }
    }
    down > 0
}

impl Report<'_> {
    /// The first request of the scenario that the report does not admit.
    pub fn refused_request(&self, scenario: &Scenario) -> Option<Id>
        ensures admitted { IfNone result (Admits self.now scenario.now) }
        ensures refused { IfSome result (λ id. (self.now ≡ reports.Locks) × IsFirstFoul scenario.now id) }
    {
        match self {
            Report::Locks => first_foul(scenario),
            Report::Text
            | Report::Trace
            | Report::Story
            | Report::Summary
            | Report::Peek { .. }
            | Report::Pace => None,
        }
    }

    /// What is printed of the run. These are its replicas after the last record, or none.
    pub fn print(
        &self,
        alloc: Global,
        journal: &Journal,
        replicas: &[Replica],
    ) -> Result<Blob, NoMemory>
        requires run { IsRun journal.now }
        requires replicas { AreCores (group_in journal.now) (run_in journal.now) replicas.now }
        ensures { IfOk result (λ bytes. bytes ≡ printed_by self.now journal.now) }
    {
        match self {
            Report::Text => run_text(alloc, journal, replicas),
            Report::Trace => {
                let head = trace(alloc, journal)?;
                headed(alloc, head, run_text(alloc, journal, replicas)?)
            }
            Report::Story => {
                let head = story(alloc, journal)?;
                headed(alloc, head, run_text(alloc, journal, replicas)?)
            }
            Report::Summary => run_summary(alloc, journal, replicas),
            Report::Locks => {
                let events = client_events_in(alloc, journal)?;
                let history = history_of(alloc, journal, events.as_slice(), replicas)?;
                let head = tenure_lines(alloc, &history)?;
                headed(alloc, head, text(alloc, events.as_slice(), &history)?)
            }
            Report::Peek { replica, key } => {
                let head = observe(alloc, journal, *replica, key.as_slice())?;
                headed(alloc, head, run_text(alloc, journal, replicas)?)
            }
            Report::Pace => pace(alloc, client_events_in(alloc, journal)?.as_slice()),
        }
    }

    /// What is printed of a run of which no record is given, but the events of its clients, what was observed of a replica,
    /// and the replicas after the last record. None where the report needs the records.
    pub fn print_events(
        &self,
        alloc: Global,
        scenario: &Scenario,
        events: &[EventAt],
        observer: Observer,
        replicas: &[Replica],
    ) -> Result<Option<Blob>, NoMemory>
        ensures { IfOk result (λ o. IfSome o (λ bytes. (j : JournalModel) → j.scenario ≡ scenario.now → World (group_in j) (run_in j)
            → events.now ≡ events_at (group_in j) (run_in j) → AreCores (group_in j) (run_in j) replicas.now
            → HasObserved self.now (group_in j) j.scenario.ticks (run_in j) observer → bytes ≡ printed_by self.now j)) }
    {
        let cluster = scenario.cluster;
        match self {
            Report::Text => first_text(alloc, cluster, events, replicas),
            Report::Summary => first_summary(alloc, cluster, events, replicas),
            Report::Locks => first_tenures(alloc, cluster, events, replicas),
            Report::Peek { .. } => match first_text(alloc, cluster, events, replicas)? {
                Some(text) => Ok(Some(headed(alloc, observer.into_blob(), text)?)),
                None => Ok(None),
            },
            Report::Pace => Ok(Some(pace(alloc, events)?)),
            Report::Trace | Report::Story => Ok(None),
        }
    }

    /// Whether what is printed may need the records of the run of the scenario: where it shows them, or where replicas may
    /// leave the first view. Either answer is right. A wrong one costs memory, or that the run is played once more.
    pub fn may_need_records(&self, scenario: &Scenario) -> bool {
        match self {
            Report::Trace | Report::Story => true,
            Report::Pace => false,
            Report::Text | Report::Summary | Report::Locks | Report::Peek { .. } => {
                may_leave_first_view(scenario)
            }
        }
    }
}
