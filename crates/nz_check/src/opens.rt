//! The open lines of a text.

ghost use Rattle.std.specs.Prelude.{◌≡◌, ◌+◌, ◌<◌, ◌^◌, ◌++◌, List, [], length, slice_get, Some, IfOk, OnOk};
ghost use Rattle.std.specs.Option.{option_eq};
ghost use Rattle.nz_base.specs.Key.{id_eq};
ghost use Rattle.nz_machine.specs.declared.journal.Executed.{Executed};
ghost use Rattle.nz_machine.specs.declared.client_event.ClientEvent.{ClientEvent as EventModel};
ghost use Rattle.nz_text.specs.Text.{open_in, unanswered_in};
ghost use Rattle.nz_check.specs.Checked.{first_line, whys, open_why, lacks_open};
ghost use Rattle.nz_check.specs.Noting.{AreNoted};

use super::events::Noted;
use super::verdict::{Verdict, Why};
use nz_base::{Id, IdList, NoMemory};
use nz_machine::ClientEvent;
use nz_text::Printed;
use std::alloc::Global;

/// Adds the request that the event sent, where it is not accepted.
fn add_if_open(noted: &Noted, event: &ClientEvent, ids: &mut IdList) -> Result<(), NoMemory>
    ensures { (H : List Executed) (E : List EventModel) → AreNoted H E noted.now → OnOk result (ids.new ≡ ids.old ++ open_in E event.now) }
{
    let ClientEvent::Sent { id, .. } = event else {
        return Ok(());
    };
    match noted.of(*id) {
        Some(sent) if sent.accepted => Ok(()),
        _ => ids.push(*id),
    }
}

/// The requests without acceptance, in the order in which they were sent.
pub fn unanswered(alloc: Global, events: &[ClientEvent], noted: &Noted) -> Result<IdList, NoMemory>
    ensures { (H : List Executed) → AreNoted H events.now noted.now → IfOk result (λ ids. ids ≡ unanswered_in events.now) }
{
    let mut ids = IdList::new(alloc);
    for event in events {
        add_if_open(noted, event, &mut ids)?;
    }
    Ok(ids)
}

/// Whether there are fewer open lines than requests without acceptance.
pub fn lacks_lines(printed: &Printed, unanswered: &[Id]) -> bool
    requires { unanswered.now ≡ unanswered_in printed.now.events }
    ensures { result ≡ lacks_open printed.now }
{
    printed.unanswered.as_slice().len() < unanswered.len()
}

/// Whether the request at this place is this one.
fn is_due(unanswered: &[Id], place: usize, id: Id) -> bool
    ensures { result ≡ option_eq id_eq (slice_get unanswered.now place) (Some id) }
{
    match unanswered.get(place) {
        Some(due) => *due == id,
        None => false,
    }
}

/// The first open line that is not the one of its place, where these are the requests without acceptance.
pub fn check_opens(printed: &Printed, unanswered: &[Id]) -> Verdict
    requires few { length printed.now.events + length printed.now.unanswered + 1 < 2 ^ 32 }
    requires open { unanswered.now ≡ unanswered_in printed.now.events }
    ensures { result ≡ first_line (length printed.now.events + 1) (whys (open_why printed.now) [] printed.now.unanswered) }
{
    let above = printed.events.len();
    let ids = printed.unanswered.as_slice();
    let mut place: u32 = 0;
    for id in ids {
        if !is_due(unanswered, place as usize, *id) {
            return Verdict::No {
                line: above + place + 1,
                why: Why::Open,
            };
        }
        place += 1;
    }
    Verdict::Yes
}
