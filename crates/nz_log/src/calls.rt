//! Lists of calls to a log, whatever its representation.

ghost use Rattle.std.specs.Prelude.{◌≡◌, ◌≤◌, ◌&&◌, IfOk, OnOk, length, take};
ghost use Rattle.nz_base.specs.Log.{keys_of, has_id, is_above_last};
ghost use Rattle.nz_log.specs.Synced.{synced_part};
ghost use Rattle.nz_log.specs.Calls.{may_follow, has_room, may_be_log, may_replace, answer_to, after_call, answers_to, after_calls};

use super::entries::{contains, is_above};
use super::log_rep::LogRep;
use nz_base::{Entry, EntryList, Id, Key, List, MAX_ENTRIES, NoMemory, TryCopy};
use nz_digest::Digest;

/// A call to a log.
#[derive(Debug, Drop, PartialEq, Eq)]
pub enum LogCall {
    Append(Entry),
    SyncAll,
    Modify(Entry),
    ReplaceAll(EntryList),
    PlaceOf(Id),
    DigestAt(u32),
}

/// What a log answers to a call.
#[derive(Debug, Drop, PartialEq, Eq)]
pub enum LogAnswer {
    Nothing,
    Removed(EntryList),
    Place(Option<u32>),
    Sum(Digest),
    /// The call's condition does not hold, and nothing changes.
    Skipped,
}

pub type LogCallList = List<LogCall>;

pub type LogAnswerList = List<LogAnswer>;

/// Makes the calls one after another. After `NoMemory` the log is no longer of use.
pub fn run_calls<L: LogRep>(log: &mut L, calls: &LogCallList) -> Result<LogAnswerList, NoMemory>
    ensures answers { IfOk result (λ answers. answers ≡ answers_to (L.log log.old) calls.now) }
    ensures log { OnOk result (L.log log.new ≡ after_calls (L.log log.old) calls.now) }
{
    let mut answers = List::new(log.alloc());
    for call in calls.as_slice() {
        answers.push(make_call(log, call)?)?;
    }
    Ok(answers)
}

fn make_call<L: LogRep>(log: &mut L, call: &LogCall) -> Result<LogAnswer, NoMemory>
    ensures answer { IfOk result (λ answer. answer ≡ answer_to (L.log log.old) call.now) }
    ensures log { OnOk result (L.log log.new ≡ after_call (L.log log.old) call.now) }
{
    match call {
        LogCall::Append(entry) => {
            if !may_append(log, &entry.key) {
                return Ok(LogAnswer::Skipped);
            }
            log.append(entry.copy(log.alloc())?)?;
            Ok(LogAnswer::Nothing)
        }
        LogCall::SyncAll => {
            log.sync_all();
            Ok(LogAnswer::Nothing)
        }
        LogCall::Modify(entry) => {
            if !may_modify(log, &entry.key) {
                return Ok(LogAnswer::Skipped);
            }
            Ok(LogAnswer::Removed(log.modify(entry.copy(log.alloc())?)?))
        }
        LogCall::ReplaceAll(list) => {
            if !may_replace(list.as_slice()) {
                return Ok(LogAnswer::Skipped);
            }
            Ok(LogAnswer::Removed(log.replace_all(list.copy(log.alloc())?)?))
        }
        LogCall::PlaceOf(id) => Ok(LogAnswer::Place(log.place_of(*id))),
        LogCall::DigestAt(place) => {
            if *place >= log.len() {
                return Ok(LogAnswer::Skipped);
            }
            Ok(LogAnswer::Sum(log.digest_at(*place)))
        }
    }
}

fn may_append<L: LogRep>(log: &L, key: &Key) -> bool
    ensures { result ≡ (may_follow (L.log log.now).entries key.now && has_room (L.log log.now)) }
{
    is_above_first(log, log.len(), key)
        && log.place_of(key.id()).is_none()
        && log.len() < MAX_ENTRIES
}

fn may_modify<L: LogRep>(log: &L, key: &Key) -> bool
    ensures { result ≡ (may_follow (synced_part (L.log log.now)) key.now && has_room (L.log log.now)) }
{
    is_above_first(log, log.synced(), key) && !has_synced(log, key.id()) && log.len() < MAX_ENTRIES
}

fn has_synced<L: LogRep>(log: &L, id: Id) -> bool
    ensures { result ≡ has_id (keys_of (synced_part (L.log log.now))) id }
{
    match log.place_of(id) {
        Some(place) => place < log.synced(),
        None => false,
    }
}

// Whether a key is above that of the last of this many entries, or there is none.
fn is_above_first<L: LogRep>(log: &L, count: u32, key: &Key) -> bool
    requires { count ≤ length (L.log log.now).entries }
    ensures { result ≡ is_above_last (keys_of (take count (L.log log.now).entries)) key.now }
{
    match count.checked_sub(1) {
        Some(last) => log.get(last).key.is_below(key),
        None => true,
    }
}

fn may_replace(list: &[Entry]) -> bool
    ensures { result ≡ may_replace list.now }
{
    is_log(list) && list.len() <= MAX_ENTRIES as usize
}

fn may_follow(entries: &[Entry], key: &Key) -> bool
    ensures { result ≡ may_follow entries.now key.now }
{
    is_above(entries, key) && !contains(entries, key.id())
}

// Whether the entries are those of a log.
fn is_log(list: &[Entry]) -> bool
    ensures { result ≡ may_be_log list.now }
{
    for (place, entry) in list.iter().enumerate() {
        let before = &list[..place];
        if !may_follow(before, &entry.key) {
            return false;
        }
    }
    true
}
