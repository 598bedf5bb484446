//! The log of a replica that leads the view of its reply to the end of the run.

ghost use Rattle.std.specs.Prelude.{◌≡◌, ◌≤◌, ◌==◌, ◌&&◌, false, length, slice_get, List, IfOk, IfNone, IfSome, IsTrue};
ghost use Rattle.nz_machine.specs.journals.Journals.{group_in, run_in};
ghost use Rattle.nz_machine.specs.runs.Leading.{lead};
ghost use Rattle.nz_machine.specs.rules.Replicas.{leads_view};
ghost use Rattle.nz_machine.specs.rules.State.{Group};
ghost use Rattle.nz_machine.specs.declared.event.Record.{Record};
ghost use Rattle.nz_replica.specs.Models.{AreCores};
ghost use Rattle.nz_replay.specs.Runs.{run_up_to};
ghost use Rattle.nz_audit.specs.Leading.{view_of_message, view_brought, first_view_brought, RepliesIn};
ghost use Rattle.nz_audit.specs.Prefixes.{HasPrefix, IsWithin};

use crate::accepted::answers::{Source, Traced};
use nz_base::NoMemory;
use nz_log::HashedLog;
use nz_machine::{Journal, Parcel, SharedParcel, heard};
use nz_msg::Message;
use nz_replica::Replica;
use std::alloc::Global;

/// The view of the message, if it is a fast reply.
fn view_in(message: &Message) -> Option<u64>
    ensures { result ≡ view_of_message message.now }
{
    match message {
        Message::FastReply(body) => Some(body.view),
        _ => None,
    }
}

/// The view of the fast reply that the parcel brings, if it brings one.
fn view_of(alloc: Global, parcel: &Parcel) -> Result<Option<u64>, NoMemory>
    ensures { IfOk result (λ view. view ≡ view_brought parcel.now) }
{
    match heard(alloc, parcel.to, parcel)? {
        Some(envelope) => Ok(view_in(&envelope.message)),
        None => Ok(None),
    }
}

/// The view of the first fast reply among the parcels, if there is one.
fn view_of_first(alloc: Global, sends: &[SharedParcel]) -> Result<Option<u64>, NoMemory>
    ensures { IfOk result (λ view. view ≡ first_view_brought sends.now) }
{
    for parcel in sends {
        let view = view_of(alloc, parcel.get())?;
        if view.is_some() {
            return Ok(view);
        }
    }
    Ok(None)
}

/// The view of the replies that the source's record sends.
fn view_at(alloc: Global, journal: &Journal, source: Source) -> Result<Option<u64>, NoMemory>
    requires { source.records ≤ length journal.now.records }
    ensures { IfOk result (λ view. IfSome view (λ v. RepliesIn v (run_up_to journal.now source.records))) }
{
    let Some(place) = source.records.checked_sub(1) else {
        return Ok(None);
    };
    match journal.records.get_whole(place) {
        Some(replying) => view_of_first(alloc, replying.sends.as_slice()),
        None => Ok(None),
    }
}

/// Whether the replica leads the view in normal operation.
fn is_leader_in(replica: &Replica, view: u64) -> bool
    ensures { let s = replica.now.model.state in
        IsTrue replica.now.live → result ≡ (leads_view replica.now.f replica.now.model.me s && (s.view == view)) }
{
    replica.leads_view() && replica.view() == view
}

/// The log of the replica with this number, if it leads the view.
pub fn log_leading(replicas: &[Replica], number: u8, view: u64) -> Option<&HashedLog>
    ensures log { IfSome result (λ log. (g : Group) (J : List Record) → AreCores g J replicas.now → log.now.entries ≡ lead g view J) }
    ensures none { IfNone result (IfSome (slice_get replicas.now number) (λ replica.
        IsTrue replica.live → (leads_view replica.f replica.model.me replica.model.state && (replica.model.state.view == view)) ≡ false)) }
{
    let replica = replicas.get(usize::from(number))?;
    if is_leader_in(replica, view) {
        Some(replica.log())
    } else {
        None
    }
}

/// Whether the replica with this number is given, and leads a view.
fn leads(replicas: &[Replica], number: u8) -> bool {
    match replicas.get(usize::from(number)) {
        Some(replica) => replica.leads_view(),
        None => false,
    }
}

/// The log of the replica that sent the reply, if after the run it leads the view of the reply: its log has only grown
/// since, so the prefix of the answer is its beginning. The reply is read only where the replica leads.
pub fn log_since<'a>(
    alloc: Global,
    journal: &Journal,
    replicas: &'a [Replica],
    next: &Traced,
) -> Result<Option<&'a HashedLog>, NoMemory>
    requires within { IsWithin journal.now next.now }
    requires replicas { AreCores (group_in journal.now) (run_in journal.now) replicas.now }
    ensures { IfOk result (λ log. IfSome log (λ log. HasPrefix journal.now next.now log.now.entries)) }
{
    let source = next.source;
    if !leads(replicas, source.replica) {
        return Ok(None);
    }
    match view_at(alloc, journal, source)? {
        Some(view) => Ok(log_leading(replicas, source.replica, view)),
        None => Ok(None),
    }
}
