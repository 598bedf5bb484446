//! The lines of a text, each written after what is there.
ghost use Rattle.std.specs.Prelude.{◌≡◌, ◌++◌, ◌<◌, ◌^◌, length, OnOk};
ghost use Rattle.std.specs.List.{flat_map};
ghost use Rattle.nz_store.specs.Reading.{command_of};
ghost use Rattle.nz_machine.specs.journals.EventNotes.{events_alone};
ghost use Rattle.nz_text.specs.Text.{id_text, found_text, answer_text, path_text, event_line, open_line, at_line, at_lines};

use nz_base::{Id, NoMemory};
use nz_machine::{ClientEvent, EventAt, Executed};
use nz_msg::Path;
use nz_script::{put, put_command, put_number};
use nz_store::{Answer, command_in};

fn put_id(out: &mut Vec<u8>, id: Id) -> Result<(), NoMemory>
    ensures { OnOk result (out.new.items ≡ out.old.items ++ id_text id) }
{
    put(out, b" c")?;
    put_number(out, u64::from(id.client))?;
    put(out, b" ")?;
    put_number(out, u64::from(id.num))
}

/// Writes the command after a space. Bytes that are no command have no text.
pub fn put_found(out: &mut Vec<u8>, bytes: &[u8]) -> Result<(), NoMemory>
    ensures { OnOk result (out.new.items ≡ out.old.items ++ found_text (command_of bytes.now)) }
{
    match command_in(bytes) {
        None => Ok(()),
        Some(command) => {
            put(out, b" ")?;
            put_command(out, command)
        }
    }
}

/// Writes the answer after a space.
pub fn put_answer(out: &mut Vec<u8>, answer: &Answer) -> Result<(), NoMemory>
    ensures { OnOk result (out.new.items ≡ out.old.items ++ answer_text answer.now) }
{
    match answer {
        Answer::Done => put(out, b" done"),
        Answer::Value(value) => {
            put(out, b" value ")?;
            put(out, value.as_slice())
        }
        Answer::Absent => put(out, b" absent"),
        Answer::Differs => put(out, b" differs"),
    }
}

/// Writes how a request was decided, after a space.
pub fn put_path(out: &mut Vec<u8>, path: Path) -> Result<(), NoMemory>
    ensures { OnOk result (out.new.items ≡ out.old.items ++ path_text path) }
{
    match path {
        Path::Fast => put(out, b" fast"),
        Path::Slow => put(out, b" slow"),
    }
}

/// Writes the line of the event.
pub fn put_event(out: &mut Vec<u8>, event: &ClientEvent) -> Result<(), NoMemory>
    ensures { OnOk result (out.new.items ≡ out.old.items ++ event_line event.now) }
{
    match event {
        ClientEvent::Sent { id, command } => {
            put(out, b"send")?;
            put_id(out, *id)?;
            put_found(out, command.as_slice())?;
        }
        ClientEvent::Accepted { id, answer, path } => {
            put(out, b"accept")?;
            put_id(out, *id)?;
            put_answer(out, answer)?;
            put_path(out, *path)?;
        }
    }
    put(out, b"\n")
}

/// Writes a line for each event.
pub fn put_events(out: &mut Vec<u8>, events: &[EventAt]) -> Result<(), NoMemory>
    ensures { OnOk result (out.new.items ≡ out.old.items ++ flat_map event_line (events_alone events.now)) }
{
    for next in events {
        put_event(out, &next.event)?;
    }
    Ok(())
}

fn put_open(out: &mut Vec<u8>, id: Id) -> Result<(), NoMemory>
    ensures { OnOk result (out.new.items ≡ out.old.items ++ open_line id) }
{
    put(out, b"open")?;
    put_id(out, id)?;
    put(out, b"\n")
}

/// Writes a line for each open request.
pub fn put_opens(out: &mut Vec<u8>, ids: &[Id]) -> Result<(), NoMemory>
    ensures { OnOk result (out.new.items ≡ out.old.items ++ flat_map open_line ids.now) }
{
    for id in ids {
        put_open(out, *id)?;
    }
    Ok(())
}

fn put_at(out: &mut Vec<u8>, place: u32, executed: &Executed) -> Result<(), NoMemory>
    ensures { OnOk result (out.new.items ≡ out.old.items ++ at_line place executed.now) }
{
    put(out, b"at ")?;
    put_number(out, u64::from(place))?;
    put_id(out, executed.id)?;
    put_found(out, executed.command.as_slice())?;
    put(out, b" gives")?;
    put_answer(out, &executed.answer)?;
    put(out, b"\n")
}

/// Writes a line for each entry of the history, with its place from 1.
pub fn put_history(out: &mut Vec<u8>, history: &[Executed]) -> Result<(), NoMemory>
    requires { length history.now < 2 ^ 32 }
    ensures { OnOk result (out.new.items ≡ out.old.items ++ at_lines 1 history.now) }
{
    let mut place = 0;
    for executed in history {
        place += 1;
        put_at(out, place, executed)?;
    }
    Ok(())
}
