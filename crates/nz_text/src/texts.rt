//! The text of a run.

ghost use Rattle.std.specs.Prelude.{◌≡◌, List, IfOk};
ghost use Rattle.nz_machine.specs.runs.History as histories;
ghost use Rattle.nz_machine.specs.journals.Journals.{executed_entries};
ghost use Rattle.nz_machine.specs.journals.EventNotes.{events_at, events_alone};
ghost use Rattle.nz_machine.specs.rules.State.{Group};
ghost use Rattle.nz_machine.specs.declared.event.Record.{Record};
ghost use Rattle.nz_text.specs.Text as text_words;
ghost use Rattle.nz_text.specs.Text.{text_of_printed};

use super::lines::{put_events, put_history, put_opens};
use super::unanswered::unanswered_of;
use nz_base::{Blob, Id, NoMemory};
use nz_machine::{EventAt, Executed, History};
use nz_script::put;
use std::alloc::Global;

/// The lines of a request mostly have less than this beside its command, which is in two of them.
const OTHER_WORDS: usize = 128;

/// About how many bytes the text of a run with this history has. They are asked for at once: a text that grows is
/// copied each time.
fn likely_len(history: &[Executed]) -> usize {
    let mut len: usize = 0;
    for executed in history {
        let command = executed.command.as_slice().len();
        len = len.saturating_add(command.saturating_mul(2).saturating_add(OTHER_WORDS));
    }
    len
}

/// The text of these events, open requests and executed entries.
pub fn spell(
    alloc: Global,
    events: &[EventAt],
    unanswered: &[Id],
    history: &History,
) -> Result<Blob, NoMemory>
    ensures { IfOk result (λ bytes. bytes ≡ text_of_printed (record { events = events_alone events.now; unanswered = unanswered.now; history = history.now })) }
{
    let mut out = Vec::with_capacity(alloc, likely_len(history.as_slice()))?;
    put_events(&mut out, events)?;
    put_opens(&mut out, unanswered)?;
    let _entries = history.len();
    put_history(&mut out, history.as_slice())?;
    put(&mut out, b"end\n")?;
    Ok(Blob::from_vec(out))
}

/// The text of the run with these events: a line for each of them, for each request that is open, and for each entry of
/// the history, and `end`.
pub fn text(alloc: Global, events: &[EventAt], history: &History) -> Result<Blob, NoMemory>
    ensures { IfOk result (λ bytes. (g : Group) (J : List Record) → events.now ≡ events_at g J
        → history.now ≡ executed_entries (histories.history g J) → bytes ≡ text_words.text g J) }
{
    let unanswered = unanswered_of(alloc, events)?;
    spell(alloc, events, unanswered.as_slice(), history)
}
