//! The trace of a run.

ghost use Rattle.std.specs.Prelude.{◌≡◌, ◌++◌, IfOk, OnOk};
ghost use Rattle.std.specs.List.{flat_map};
ghost use Rattle.nz_machine.specs.journals.Journals.{run_in};
ghost use Rattle.nz_text.specs.Trace as trace_words;
ghost use Rattle.nz_text.specs.Trace.{parcel_text, what_text, sends_text, record_line};

use nz_base::{Blob, NoMemory};
use nz_machine::{Event, Journal, Parcel, Record, RecordList, Sends, kind_of};
use nz_script::{name_of, put, put_actor, put_number};
use std::alloc::Global;

fn put_parcel(out: &mut Vec<u8>, parcel: &Parcel) -> Result<(), NoMemory>
    ensures { OnOk result (out.new.items ≡ out.old.items ++ parcel_text parcel.now) }
{
    if let Some(kind) = kind_of(&parcel.frame) {
        put(out, name_of(kind))?;
    }
    put(out, b" ")?;
    put_actor(out, parcel.from)
}

/// Writes what happened to an actor, as a line of a trace has it.
pub fn put_what(out: &mut Vec<u8>, event: &Event) -> Result<(), NoMemory>
    ensures { OnOk result (out.new.items ≡ out.old.items ++ what_text event.now) }
{
    match event {
        Event::Deliver(parcel) => {
            put(out, b"deliver ")?;
            put_parcel(out, parcel.get())
        }
        Event::Cut(kept, parcel) => {
            put(out, b"cut ")?;
            put_parcel(out, parcel.get())?;
            put(out, b" ")?;
            put_number(out, u64::from(*kept))
        }
        Event::Tick(clock) => {
            put(out, b"tick ")?;
            put_number(out, *clock)
        }
        Event::Alarm => put(out, b"alarm"),
        Event::Crash => put(out, b"crash"),
        Event::Restart(nonce) => {
            put(out, b"restart ")?;
            put_number(out, *nonce)
        }
    }
}

fn put_sends(out: &mut Vec<u8>, sends: &Sends) -> Result<(), NoMemory>
    ensures { OnOk result (out.new.items ≡ out.old.items ++ sends_text sends.now) }
{
    put(out, b" -> ")?;
    put_number(out, u64::from(sends.len()))?;
    put(out, b"\n")
}

fn put_record(out: &mut Vec<u8>, step: &Record) -> Result<(), NoMemory>
    ensures { OnOk result (out.new.items ≡ out.old.items ++ record_line step.now) }
{
    put_number(out, u64::from(step.tick))?;
    put(out, b" ")?;
    put_actor(out, step.actor)?;
    put(out, b" ")?;
    put_what(out, &step.event)?;
    put_sends(out, &step.sends)
}

fn put_records(out: &mut Vec<u8>, records: &RecordList) -> Result<(), NoMemory>
    ensures { OnOk result (out.new.items ≡ out.old.items ++ flat_map record_line records.now) }
{
    for place in 0..records.len() {
        put_record(out, records.get(place).as_record())?;
    }
    Ok(())
}

/// The trace of the journal's run: a line for each record.
pub fn trace(alloc: Global, journal: &Journal) -> Result<Blob, NoMemory>
    ensures { IfOk result (λ bytes. bytes ≡ trace_words.trace (run_in journal.now)) }
{
    let mut out = Vec::new(alloc);
    put_records(&mut out, &journal.records)?;
    Ok(Blob::from_vec(out))
}
