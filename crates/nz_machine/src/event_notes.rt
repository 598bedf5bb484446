//! The events of a run's clients, read off its records.
ghost use Rattle.std.specs.Prelude.{◌≡◌, ◌∷◌, ◌++◌, ◌<◌, ◌≤◌, ◌+◌, ◌^◌, [], List as Listed, length, take, drop, reverse, IfOk, OnOk};
ghost use Rattle.nz_machine.specs.journals.Journals.{group_in, run_in};
ghost use Rattle.nz_machine.specs.journals.EventNotes.{all_at, events_at, AreNoted};
ghost use Rattle.nz_machine.specs.rules.State.{Group};
ghost use Rattle.nz_machine.specs.runs.Schedule.{group_of};
ghost use Rattle.nz_machine.specs.runs.World.{World};
ghost use Rattle.nz_machine.specs.declared.event.Record.{Record as RecordModel};

use super::client_event::{ClientEvent, EventAt, EventList};
use super::client_progress::Clients;
use super::event::Record;
use super::journal::Journal;
use super::records::Recording;
use nz_base::{List, NoMemory, Scenario};
use std::alloc::Global;

/// Adds the events of the record at this place and of this tick.
fn add(
    events: &mut EventList,
    place: u32,
    tick: u32,
    found: List<ClientEvent>,
) -> Result<(), NoMemory>
    ensures { OnOk result (events.new ≡ events.old ++ all_at place tick found) }
{
    for event in found.into_vec() {
        events.push(EventAt { place, tick, event })?;
    }
    Ok(())
}

/// The events of a run's clients, noted while the run goes on: each record is read once, in order, and may be dropped
/// afterwards. After `NoMemory` nothing is known of the notes.
#[derive(Debug, Drop)]
pub struct Notes {
    clients: Clients,
    events: EventList,
}

impl Notes {
    /// Before the first record.
    pub fn new(alloc: Global, scenario: &Scenario) -> Result<Notes, NoMemory>
        ensures { IfOk result (AreNoted (group_of scenario.now) []) }
    {
        Ok(Notes {
            clients: Clients::new(alloc, scenario)?,
            events: EventList::new(alloc),
        })
    }

    /// Reads the next record, which has the place after those that were read.
    fn read_next(
        &mut self,
        alloc: Global,
        scenario: &Scenario,
        place: u32,
        next: &Record,
    ) -> Result<(), NoMemory>
        ensures { let g = group_of scenario.now in OnOk result ((J : Listed RecordModel) → World g (next.now ∷ J) → place ≡ length J
            → AreNoted g J self.old → AreNoted g (next.now ∷ J) self.new) }
    {
        let found = self.clients.read(alloc, scenario, next)?;
        add(&mut self.events, place, next.tick, found)
    }

    /// Reads the record at this place, as `read` does. A silent tick has no events.
    fn read_at(
        &mut self,
        alloc: Global,
        scenario: &Scenario,
        gone: u32,
        records: &Recording,
        place: usize,
    ) -> Result<(), NoMemory>
        requires place { place < length records.now.records }
        requires few { gone + length records.now.records < 2 ^ 32 }
        ensures { let g = group_of scenario.now in OnOk result ((run : Listed RecordModel) → World g (reverse run) → records.now.records ≡ drop gone run
            → AreNoted g (reverse (take (gone + place) run)) self.old → AreNoted g (reverse (take (gone + place + 1) run)) self.new) }
    {
        match records.get_whole(place) {
            Some(next) => self.read_next(alloc, scenario, gone + place as u32, next),
            None => Ok(()),
        }
    }

    /// Reads the records from this place on. They are those of a run of the scenario after its first `gone` ones.
    pub fn read(
        &mut self,
        alloc: Global,
        scenario: &Scenario,
        gone: u32,
        records: &Recording,
        from: usize,
    ) -> Result<(), NoMemory>
        requires from { from ≤ length records.now.records }
        requires few { gone + length records.now.records < 2 ^ 32 }
        ensures { let g = group_of scenario.now in OnOk result ((run : Listed RecordModel) → World g (reverse run) → records.now.records ≡ drop gone run
            → AreNoted g (reverse (take (gone + from) run)) self.old → AreNoted g (reverse run) self.new) }
    {
        for place in from..records.len() {
            self.read_at(alloc, scenario, gone, records, place)?;
        }
        Ok(())
    }

    /// The events that were read.
    pub fn into_events(self) -> EventList
        ensures { (g : Group) (J : Listed RecordModel) → AreNoted g J self → result ≡ events_at g J }
    {
        let Notes { events, .. } = self;
        events
    }
}

/// The events of the clients in the journal's run, in the order of the records.
pub fn client_events_in(alloc: Global, journal: &Journal) -> Result<EventList, NoMemory>
    requires { World (group_in journal.now) (run_in journal.now) }
    ensures { IfOk result (λ events. events ≡ events_at (group_in journal.now) (run_in journal.now)) }
{
    let scenario = &journal.scenario;
    let mut notes = Notes::new(alloc, scenario)?;
    notes.read(alloc, scenario, 0, journal.records.as_recording(), 0)?;
    Ok(notes.into_events())
}
