//! The records of a run. A silent tick, on which its actor sends nothing, takes 16 bytes of them.

ghost use Rattle.std.specs.Prelude.{◌≡◌, ◌≤◌, ◌<◌, ◌+◌, ◌-◌, ◌^◌, min, ◌∷◌, ◌++◌, [], length, slice_get, vec_len, vec_capacity, Some, IfOk, OnOk, OnErr, IfSome, MatchOption, List as Listed};
ghost use Rattle.nz_machine.specs.journals.Records.{IsKept, IsSilentClock, record_of_row};
ghost use Rattle.nz_machine.specs.declared.event.Record.{Record as RecordModel};
ghost use Rattle.nz_machine.specs.declared.records.Row.{Row as RowModel};

use super::event::{Event, Record};
use super::sends::Sends;
use nz_base::{Actor, NoMemory};
use std::alloc::Global;
use std::marker::Model;
use std::mem::size_of;

/// How a record is kept. The order of the fields leaves no gaps.
#[derive(Clone, Copy)]
enum Row {
    /// It is a silent tick.
    Clock {
        actor: Actor,
        tick: u32,
        reading: u64,
    },
    /// It is at this place of those that are kept whole.
    Whole {
        place: usize,
    },
}

const _: () = prove!(size_of::<Row>() == 16);

/// A record that is read: made from its row, or where it is kept whole.
#[derive(Drop)]
enum Kept<'a> {
    Clock(Record),
    Whole(&'a Record),
}

/// A record that is read. Contracts see the record.
#[derive(Drop)]
pub struct RecordRef<'a> {
    kept: Kept<'a>,
}

impl<'a> Model for RecordRef<'a> {
    ghost use Rattle.nz_machine.specs.declared.event.Record.{Record as RecordModel};

    ghost Value = { RecordModel };

    ghost use Rattle.nz_machine.specs.journals.Records.{record_read};

    ghost view = { λ r. record_read r.kept };
}

impl RecordRef<'_> {
    pub fn as_record(&self) -> &Record
        ensures { result.now ≡ self.now }
    {
        match &self.kept {
            Kept::Clock(step) => step,
            Kept::Whole(step) => step,
        }
    }
}

/// The records of a run that goes on, in the order of recording.
#[derive(Drop)]
pub struct Recording {
    alloc: Global,
    rows: Vec<Row>,
    /// The records that are kept whole.
    others: Vec<Record>,
    /// How many records there is room for.
    room: usize,
}

impl Model for Recording {
    ghost use Rattle.std.specs.Prelude.{vec_capacity};
    ghost use Rattle.nz_machine.specs.journals.Records.{AreKept, Recorded, records_of_rows};

    ghost Value = { Recorded };

    ghost view = { λ r. record { records = records_of_rows r.others.items r.rows.items; room = r.room } };

    ghost invariant = { λ r. AreKept r.rows.items r.others.items r.room (vec_capacity r.rows) (vec_capacity r.others) };
}

/// The row of the record, where it is a silent tick.
fn clock_row(step: &Record) -> Option<Row>
    ensures { IfSome result (λ row. (others : Listed RecordModel) → (record_of_row others row ≡ step.now) × IsKept others row) }
{
    match step.event {
        Event::Tick(reading) if step.sends.is_empty() => Some(Row::Clock {
            actor: step.actor,
            tick: step.tick,
            reading,
        }),
        _ => None,
    }
}

/// The row of the record. Unless it is a silent tick, it is put last of those that are kept whole.
fn row_of(step: Record, others: &mut Vec<Record>) -> Row
    requires { vec_len others.old < vec_capacity others.old }
    ensures row { (record_of_row others.new.items result ≡ step) × IsKept others.new.items result }
    ensures earlier { (row : RowModel) → IsKept others.old.items row
        → (record_of_row others.new.items row ≡ record_of_row others.old.items row) × IsKept others.new.items row }
    ensures more { vec_len others.new ≤ vec_len others.old + 1 }
    ensures capacity { vec_capacity others.new ≡ vec_capacity others.old }
{
    match clock_row(&step) {
        Some(row) => row,
        None => {
            let place = others.len();
            others.push_reserved(step);
            Row::Whole { place }
        }
    }
}

/// How many records more there is memory for, of either kind.
fn spare(rows: &Vec<Row>, others: &Vec<Record>) -> usize
    ensures least { min (vec_capacity rows.now - vec_len rows.now) (vec_capacity others.now - vec_len others.now) ≡ result }
{
    let places = rows.capacity() - rows.len();
    places.min(others.capacity() - others.len())
}

impl Recording {
    fn empty(alloc: Global) -> Recording
        ensures { result.records ≡ [] }
    {
        Recording {
            alloc,
            rows: Vec::new(alloc),
            others: Vec::new(alloc),
            room: 0,
        }
    }

    /// No record, and memory for the rows of this many clocks.
    pub fn new(alloc: Global, clocks: usize) -> Result<Recording, NoMemory>
        ensures { IfOk result (λ recording. recording.records ≡ []) }
    {
        let mut recording = Recording::empty(alloc);
        recording.rows.reserve(clocks)?;
        Ok(recording)
    }

    pub fn len(&self) -> usize
        ensures { result ≡ length self.now.records }
    {
        self.rows.len()
    }

    /// Makes room for this many records more.
    pub fn reserve(&mut self, count: usize) -> Result<(), NoMemory>
        ensures records { self.new.records ≡ self.old.records }
        ensures room { self.old.room ≤ self.new.room }
        ensures ok { OnOk result (length self.new.records + count ≤ self.new.room) }
    {
        if count > self.room - self.rows.len() {
            self.rows.reserve(count)?;
            self.others.reserve(count)?;
            self.room = self.rows.len() + spare(&self.rows, &self.others);
        }
        Ok(())
    }

    /// Puts the record last.
    pub fn push_reserved(&mut self, step: Record)
        requires { length self.old.records < self.old.room }
        ensures records { self.new.records ≡ self.old.records ++ step ∷ [] }
        ensures room { self.new.room ≡ self.old.room }
    {
        let row = row_of(step, &mut self.others);
        self.rows.push_reserved(row);
    }

    pub fn get(&self, place: usize) -> RecordRef<'_>
        requires { place < length self.now.records }
        ensures { slice_get self.now.records place ≡ Some result }
    {
        let kept = match self.rows[place] {
            Row::Clock {
                actor,
                tick,
                reading,
            } => Kept::Clock(Record {
                tick,
                actor,
                event: Event::Tick(reading),
                sends: Sends::new(),
            }),
            Row::Whole { place } => Kept::Whole(&self.others[place]),
        };
        RecordRef { kept }
    }

    /// The record's tick and its actor.
    pub fn moment(&self, place: usize) -> (u32, Actor)
        requires { place < length self.now.records }
        ensures { (step : RecordModel) → slice_get self.now.records place ≡ Some step → result ≡ (step.tick, step.actor) }
    {
        match self.rows[place] {
            Row::Clock { actor, tick, .. } => (tick, actor),
            Row::Whole { place } => {
                let step = &self.others[place];
                (step.tick, step.actor)
            }
        }
    }

    /// The record, unless it is a silent tick.
    pub fn get_whole(&self, place: usize) -> Option<&Record>
        requires { place < length self.now.records }
        ensures { MatchOption result
            ((step : RecordModel) → slice_get self.now.records place ≡ Some step → IsSilentClock step)
            (λ step. slice_get self.now.records place ≡ Some step.now) }
    {
        match self.rows[place] {
            Row::Clock { .. } => None,
            Row::Whole { place } => Some(&self.others[place]),
        }
    }

    /// Drops the records, and keeps their memory for later ones.
    pub fn clear(&mut self)
        ensures { self.new.records ≡ [] }
    {
        self.rows.clear();
        self.others.clear();
        self.room = spare(&self.rows, &self.others);
    }

    /// The records as a list. They are not copied.
    pub fn into_list(self) -> RecordList
        requires { length self.records < 2 ^ 32 }
        ensures { result ≡ self.records }
    {
        RecordList { recording: self }
    }
}

/// The records of a run, the oldest first: at most 2^32 - 1. Contracts see the list of them.
#[derive(Drop)]
pub struct RecordList {
    recording: Recording,
}

impl Model for RecordList {
    ghost use Rattle.std.specs.Prelude.{List, length, ◌<◌, ◌^◌};
    ghost use Rattle.nz_machine.specs.declared.event.Record.{Record as RecordModel};

    ghost Value = { List RecordModel };

    ghost view = { λ l. l.recording.records };

    ghost invariant = { λ l. length l.recording.records < 2 ^ 32 };
}

impl RecordList {
    pub fn new(alloc: Global) -> RecordList
        ensures { result ≡ [] }
    {
        Recording::empty(alloc).into_list()
    }

    pub fn len(&self) -> u32
        ensures { result ≡ length self.now }
    {
        self.recording.len() as u32
    }

    pub fn as_recording(&self) -> &Recording
        ensures records { result.now.records ≡ self.now }
        ensures few { length self.now < 2 ^ 32 }
    {
        &self.recording
    }

    /// Puts the record last. At 2^32 - 1 records the answer is `NoMemory`.
    pub fn push(&mut self, step: Record) -> Result<(), NoMemory>
        ensures ok { OnOk result (self.new ≡ self.old ++ step ∷ []) }
        ensures err { OnErr result (self.new ≡ self.old) }
    {
        if self.len() == u32::MAX {
            return Err(NoMemory);
        }
        self.recording.reserve(1)?;
        self.recording.push_reserved(step);
        Ok(())
    }

    pub fn get(&self, place: u32) -> RecordRef<'_>
        requires { place < length self.now }
        ensures { slice_get self.now place ≡ Some result }
    {
        self.recording.get(place as usize)
    }

    /// The record's tick and its actor.
    pub fn moment(&self, place: u32) -> (u32, Actor)
        requires { place < length self.now }
        ensures { (step : RecordModel) → slice_get self.now place ≡ Some step → result ≡ (step.tick, step.actor) }
    {
        self.recording.moment(place as usize)
    }

    /// The record, unless it is a silent tick.
    pub fn get_whole(&self, place: u32) -> Option<&Record>
        requires { place < length self.now }
        ensures { MatchOption result
            ((step : RecordModel) → slice_get self.now place ≡ Some step → IsSilentClock step)
            (λ step. slice_get self.now place ≡ Some step.now) }
    {
        self.recording.get_whole(place as usize)
    }
}
