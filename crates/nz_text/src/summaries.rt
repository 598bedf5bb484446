//! The summary of a run.

ghost use Rattle.std.specs.Prelude.{◌≡◌, ◌++◌, List, count_by, IfOk, OnOk};
ghost use Rattle.nz_machine.specs.runs.History as histories;
ghost use Rattle.nz_machine.specs.journals.Journals.{executed_entries};
ghost use Rattle.nz_machine.specs.journals.EventNotes.{events_at, events_alone};
ghost use Rattle.nz_machine.specs.rules.State.{Group};
ghost use Rattle.nz_machine.specs.declared.event.Record.{Record};
ghost use Rattle.nz_text.specs.Text as text;
ghost use Rattle.nz_text.specs.Text.{is_event_of, count_line, summary_of};

use super::unanswered::unanswered_of;
use nz_base::{Blob, IdList, NoMemory};
use nz_machine::{ClientEvent, EventAt, History};
use nz_msg::Path;
use nz_script::{put, put_number};
use std::alloc::Global;

/// A sort of events.
#[derive(Clone, Copy, Debug)]
pub enum Sort {
    Sent,
    Accepted,
    Fast,
    Slow,
}

impl Sort {
    fn has(self, event: &ClientEvent) -> bool
        ensures { result ≡ is_event_of self event.now }
    {
        match (self, event) {
            (Sort::Sent, ClientEvent::Sent { .. }) => true,
            (Sort::Accepted, ClientEvent::Accepted { .. }) => true,
            (
                Sort::Fast,
                ClientEvent::Accepted {
                    path: Path::Fast,
                    ..
                },
            ) => true,
            (
                Sort::Slow,
                ClientEvent::Accepted {
                    path: Path::Slow,
                    ..
                },
            ) => true,
            _ => false,
        }
    }

    fn count(self, events: &[EventAt]) -> usize
        ensures { result ≡ count_by (is_event_of self) (events_alone events.now) }
    {
        events.iter().filter(|next| self.has(&next.event)).count()
    }
}

fn put_count(out: &mut Vec<u8>, name: &[u8], count: usize) -> Result<(), NoMemory>
    ensures { OnOk result (out.new.items ≡ out.old.items ++ count_line name.now count) }
{
    put(out, name)?;
    put(out, b" ")?;
    put_number(out, count as u64)?;
    put(out, b"\n")
}

/// The summary of these.
pub fn count(
    alloc: Global,
    events: &[EventAt],
    unanswered: &IdList,
    history: &History,
) -> Result<Blob, NoMemory>
    ensures { IfOk result (λ bytes. bytes ≡ summary_of (record { events = events_alone events.now; unanswered = unanswered.now; history = history.now })) }
{
    let mut out = Vec::new(alloc);
    put_count(&mut out, b"sent", Sort::Sent.count(events))?;
    put_count(&mut out, b"accepted", Sort::Accepted.count(events))?;
    put_count(&mut out, b"fast", Sort::Fast.count(events))?;
    put_count(&mut out, b"slow", Sort::Slow.count(events))?;
    put_count(&mut out, b"open", unanswered.len() as usize)?;
    put_count(&mut out, b"history", history.len() as usize)?;
    put(&mut out, b"end\n")?;
    Ok(Blob::from_vec(out))
}

/// How many lines of each sort the text of the run with these events has.
pub fn summary(alloc: Global, events: &[EventAt], history: &History) -> Result<Blob, NoMemory>
    ensures { IfOk result (λ bytes. (g : Group) (J : List Record) → events.now ≡ events_at g J
        → history.now ≡ executed_entries (histories.history g J) → bytes ≡ text.summary g J) }
{
    let unanswered = unanswered_of(alloc, events)?;
    count(alloc, events, &unanswered, history)
}
