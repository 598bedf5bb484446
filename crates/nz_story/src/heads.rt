//! The head of a record, and what its client saw.

ghost use Rattle.std.specs.Prelude.{◌≡◌, ◌++◌, OnOk};
ghost use Rattle.nz_story.specs.Story.{head_line, event_under, events_text};

use nz_base::NoMemory;
use nz_machine::{ClientEvent, Record};
use nz_script::{put, put_actor, put_number};
use nz_text::{put_event, put_what};

/// Writes the head of the record.
pub fn put_head(out: &mut Vec<u8>, step: &Record) -> Result<(), NoMemory>
    ensures { OnOk result (out.new.items ≡ out.old.items ++ head_line step.now) }
{
    put_number(out, u64::from(step.tick))?;
    put(out, b" ")?;
    put_actor(out, step.actor)?;
    put(out, b" ")?;
    put_what(out, &step.event)?;
    put(out, b"\n")
}

fn put_under(out: &mut Vec<u8>, event: &ClientEvent) -> Result<(), NoMemory>
    ensures { OnOk result (out.new.items ≡ out.old.items ++ event_under event.now) }
{
    put(out, b"  ")?;
    put_event(out, event)
}

/// Writes the events of a client.
pub fn put_events(out: &mut Vec<u8>, events: &[ClientEvent]) -> Result<(), NoMemory>
    ensures { OnOk result (out.new.items ≡ out.old.items ++ events_text events.now) }
{
    for event in events {
        put_under(out, event)?;
    }
    Ok(())
}
