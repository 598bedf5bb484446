//! The whole of a text.

ghost use Rattle.std.specs.Prelude.{◌≡◌, ◌≢◌, ◌+◌, ◌<◌, ◌^◌, ◌∷◌, [], length, nat_lt, IfOk, Err};
ghost use Rattle.nz_text.specs.declared.fault.TextFault.TheVariants as text_fault;
ghost use Rattle.nz_check.specs.Checked.{first_line, end_why, lacks_open, verdict_of, judged, checked};

use super::entries::check_entries;
use super::events::{Noted, check_events};
use super::limit::{MAX_PRINTED, line_of_limit};
use super::opens::{check_opens, lacks_lines, unanswered};
use super::places::places_of;
use super::verdict::{Verdict, Why};
use nz_base::NoMemory;
use nz_text::{Printed, TextFault, read_text};
use std::alloc::Global;

/// Whether open lines are missing where there is no history.
fn check_end(printed: &Printed, lacks: bool) -> Verdict
    requires few { length printed.now.events + length printed.now.unanswered + length printed.now.history + 1 < 2 ^ 32 }
    requires lacks { lacks ≡ lacks_open printed.now }
    ensures { result ≡ first_line (length printed.now.events + length printed.now.unanswered + length printed.now.history + 1) (end_why printed.now ∷ []) }
{
    if printed.history.is_empty() && lacks {
        Verdict::No {
            line: printed.events.len() + printed.unanswered.len() + printed.history.len() + 1,
            why: Why::Open,
        }
    } else {
        Verdict::Yes
    }
}

/// The verdict on what is printed.
fn judge(alloc: Global, printed: &Printed) -> Result<Verdict, NoMemory>
    requires { length printed.now.events + length printed.now.unanswered + length printed.now.history + 1 < 2 ^ 32 }
    ensures { IfOk result (λ verdict. verdict ≡ verdict_of printed.now) }
{
    let places = places_of(alloc, printed.history.as_slice())?;
    let mut noted = Noted::new(alloc);
    let events = check_events(printed, &places, &mut noted)?;
    if !events.is_yes() {
        return Ok(events);
    }
    let open = unanswered(alloc, printed.events.as_slice(), &noted)?;
    let opens = check_opens(printed, open.as_slice());
    if !opens.is_yes() {
        return Ok(opens);
    }
    let lacks = lacks_lines(printed, open.as_slice());
    let entries = check_entries(alloc, printed, &places, &noted, lacks)?;
    if !entries.is_yes() {
        return Ok(entries);
    }
    Ok(check_end(printed, lacks))
}

/// The verdict on a text that was not read, unless memory ran out.
fn refused(fault: TextFault) -> Result<Verdict, NoMemory>
    ensures { IfOk result (λ verdict. (fault ≢ text_fault.NoMemory) × (verdict ≡ judged (Err fault))) }
{
    match fault {
        TextFault::Bad { line } => Ok(Verdict::No {
            line,
            why: Why::Form,
        }),
        TextFault::NoMemory => Err(NoMemory),
    }
}

fn is_long(printed: &[u8]) -> bool
    ensures { result ≡ nat_lt MAX_PRINTED (length printed.now) }
{
    MAX_PRINTED < printed.len()
}

/// Whether the text is that of a run with one history, or its first line that is not, and why. The text is of the
/// grammar, its events are in form, its open lines are the requests without acceptance, its answers are those of one
/// store that executes the history, and events and history are one history: then the answer is `Yes`, and only then.
#[tactic(none)]
pub fn check(alloc: Global, printed: &[u8]) -> Result<Verdict, NoMemory>
    ensures { IfOk result (λ verdict. verdict ≡ checked printed.now) }
{
    if is_long(printed) {
        let line = line_of_limit(printed);
        return Ok(Verdict::No {
            line,
            why: Why::Limit,
        });
    }
    match read_text(alloc, printed) {
        Ok(said) => judge(alloc, &said),
        Err(fault) => refused(fault),
    }
}
