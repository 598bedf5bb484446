//! Which messages have a spelling. A number that is read here is in the range of its type.

ghost use Rattle.std.specs.Prelude.{◌↔◌, ◌≡◌, IsTrue, []};
ghost use Rattle.nz_msg.specs.Codec.{optional, ItemsFit};
ghost use Rattle.nz_msg.specs.Fields.{view, deadline, id, command, digest, vector, answer, key, next_key, next_entry, ids, keys, entries};
ghost use Rattle.nz_msg.specs.Messages.{request, timed, fast_reply, slow_reply, client_answer, log_mod, fetch, fetch_reply, sync_report};
ghost use Rattle.nz_msg.specs.Messages.{view_change, start_view, vector_tell, vector_ask, rejoin_tell, state_ask, state_tell};

use super::bodies::MAX_FETCHED;
use super::lists::{is_cluster_size, may_follow, may_follow_entries};
use super::message::{
    AnswerBody, FastReplyBody, FetchBody, FetchReplyBody, LogModBody, Message, RejoinTellBody,
    RequestBody, SlowReplyBody, StartViewBody, StateAskBody, StateTellBody, SyncReportBody,
    TimedBody, ViewChangeBody,
};
use nz_base::{
    Blob, Entry, EntryList, Id, IdList, Key, KeyList, MAX_COMMAND, MAX_DEADLINE, MAX_ENTRIES,
    MAX_KEYS, MAX_VALUE, MAX_VIEW,
};
use nz_cv::CrashVector;
use nz_digest::Digest;
use nz_store::Answer;

// ---- fields

fn is_view(number: u64) -> bool
    ensures { IsTrue result ↔ view.fits number }
{
    number <= MAX_VIEW
}

fn is_deadline(number: u64) -> bool
    ensures { IsTrue result ↔ deadline.fits number }
{
    number <= MAX_DEADLINE
}

fn is_id(i: Id) -> bool
    ensures { IsTrue result ↔ id.fits i }
{
    let _numbers = (i.client, i.num);
    true
}

fn is_command(bytes: &Blob) -> bool
    ensures { IsTrue result ↔ command.fits bytes.now }
{
    let len = bytes.as_slice().len();
    1 <= len && len <= usize::from(MAX_COMMAND)
}

fn is_digest(d: &Digest) -> bool
    ensures { IsTrue result ↔ digest.fits d.now }
{
    d.as_bytes().len() == 20
}

fn are_counters(counters: &[u32]) -> bool
    ensures { IsTrue result ↔ vector.fits counters.now }
{
    is_cluster_size(counters.len())
}

fn is_vector(v: &CrashVector) -> bool
    ensures { IsTrue result ↔ vector.fits v.now }
{
    are_counters(v.as_slice())
}

fn is_answer(a: &Answer) -> bool
    ensures { IsTrue result ↔ answer.fits a.now }
{
    match a {
        Answer::Value(text) => {
            let len = text.as_slice().len();
            1 <= len && len <= usize::from(MAX_VALUE)
        }
        Answer::Done | Answer::Absent | Answer::Differs => true,
    }
}

fn is_answer_if_any(a: &Option<Answer>) -> bool
    ensures { IsTrue result ↔ (optional answer).fits a.now }
{
    match a {
        None => true,
        Some(a) => is_answer(a),
    }
}

fn is_key(k: &Key) -> bool
    ensures { IsTrue result ↔ key.fits k.now }
{
    is_deadline(k.deadline) && is_id(k.id())
}

fn is_next_key(before: &[Key], k: &Key) -> bool
    ensures { IsTrue result ↔ (next_key before.now).fits k.now }
{
    is_key(k) && may_follow(before, k)
}

fn is_next_entry(before: &[Entry], entry: &Entry) -> bool
    ensures { IsTrue result ↔ (next_entry before.now).fits entry.now }
{
    is_key(&entry.key) && may_follow_entries(before, &entry.key) && is_command(&entry.command)
}

// ---- lists

fn are_all_ids(list: &[Id]) -> bool
    ensures { IsTrue result ↔ ItemsFit (λ _. id) [] list.now }
{
    for place in 0..list.len() {
        if !is_id(list[place]) {
            return false;
        }
    }
    true
}

fn are_ids(list: &IdList) -> bool
    ensures { IsTrue result ↔ ids.fits list.now }
{
    1 <= list.len() && list.len() <= u32::from(MAX_KEYS) && are_all_ids(list.as_slice())
}

fn are_all_keys(list: &[Key]) -> bool
    ensures { IsTrue result ↔ ItemsFit next_key [] list.now }
{
    for place in 0..list.len() {
        if !is_next_key(&list[..place], &list[place]) {
            return false;
        }
    }
    true
}

fn are_keys(list: &KeyList) -> bool
    ensures { IsTrue result ↔ keys.fits list.now }
{
    list.len() <= u32::from(MAX_KEYS) && are_all_keys(list.as_slice())
}

fn are_all_entries(list: &[Entry]) -> bool
    ensures { IsTrue result ↔ ItemsFit next_entry [] list.now }
{
    for place in 0..list.len() {
        if !is_next_entry(&list[..place], &list[place]) {
            return false;
        }
    }
    true
}

fn are_entries(list: &EntryList, least: u32, most: u32) -> bool
    ensures { IsTrue result ↔ (entries least most).fits list.now }
{
    least <= list.len() && list.len() <= most && are_all_entries(list.as_slice())
}

// ---- bodies

fn is_request(b: &RequestBody) -> bool
    ensures { IsTrue result ↔ request.fits b.now }
{
    let _num = b.num;
    is_command(&b.command)
}

fn is_timed(b: &TimedBody) -> bool
    ensures { IsTrue result ↔ timed.fits b.now }
{
    let _sent = b.sent;
    is_deadline(b.deadline) && is_id(b.id) && is_command(&b.command)
}

fn is_fast_reply(b: &FastReplyBody) -> bool
    ensures { IsTrue result ↔ fast_reply.fits b.now }
{
    let _delay = b.delay;
    is_view(b.view)
        && is_id(b.id)
        && is_digest(&b.digest)
        && is_vector(&b.vector)
        && is_answer_if_any(&b.answer)
}

fn is_slow_reply(b: &SlowReplyBody) -> bool
    ensures { IsTrue result ↔ slow_reply.fits b.now }
{
    let _delay = b.delay;
    is_view(b.view) && is_id(b.id)
}

fn is_client_answer(b: &AnswerBody) -> bool
    ensures { IsTrue result ↔ client_answer.fits b.now }
{
    let _num = b.num;
    is_answer(&b.answer)
}

fn is_log_mod(b: &LogModBody) -> bool
    ensures { IsTrue result ↔ log_mod.fits b.now }
{
    let _commit = b.commit;
    let _start = b.start;
    is_view(b.view) && is_vector(&b.vector) && are_keys(&b.keys)
}

fn is_fetch(b: &FetchBody) -> bool
    ensures { IsTrue result ↔ fetch.fits b.now }
{
    is_view(b.view) && are_ids(&b.ids)
}

fn is_fetch_reply(b: &FetchReplyBody) -> bool
    ensures { IsTrue result ↔ fetch_reply.fits b.now }
{
    is_view(b.view) && are_entries(&b.entries, 0, MAX_FETCHED)
}

fn is_sync_report(b: &SyncReportBody) -> bool
    ensures { IsTrue result ↔ sync_report.fits b.now }
{
    let _synced = b.synced;
    is_view(b.view)
}

fn is_view_change(b: &ViewChangeBody) -> bool
    ensures { IsTrue result ↔ view_change.fits b.now }
{
    is_view(b.view)
        && is_view(b.last)
        && is_vector(&b.vector)
        && are_entries(&b.entries, b.synced.max(b.commit), MAX_ENTRIES)
}

fn is_start_view(b: &StartViewBody) -> bool
    ensures { IsTrue result ↔ start_view.fits b.now }
{
    is_view(b.view) && is_vector(&b.vector) && are_entries(&b.entries, b.commit, MAX_ENTRIES)
}

// A nonce and a vector.
fn is_nonce(nonce: u64, vector: &CrashVector) -> bool
    ensures { IsTrue result ↔ vector_tell.fits (record { nonce = nonce; vector = vector.now }) }
{
    let _nonce = nonce;
    is_vector(vector)
}

fn is_rejoin_tell(b: &RejoinTellBody) -> bool
    ensures { IsTrue result ↔ rejoin_tell.fits b.now }
{
    is_nonce(b.nonce, &b.vector) && is_view(b.view)
}

fn is_state_ask(b: &StateAskBody) -> bool
    ensures { IsTrue result ↔ state_ask.fits b.now }
{
    is_nonce(b.nonce, &b.vector) && is_view(b.view)
}

fn is_state_tell(b: &StateTellBody) -> bool
    ensures { IsTrue result ↔ state_tell.fits b.now }
{
    is_nonce(b.nonce, &b.vector)
        && is_view(b.view)
        && are_entries(&b.entries, b.commit, MAX_ENTRIES)
}

fn is_plain(nonce: u64) -> bool
    ensures { IsTrue result ↔ vector_ask.fits (record { nonce = nonce }) }
{
    let _nonce = nonce;
    true
}

impl Message {
    ghost use Rattle.nz_msg.specs.Messages.{Fits};

    /// Whether each field is in its range, so that the message has a spelling.
    pub fn is_valid(&self) -> bool
        ensures { IsTrue result ↔ Fits self.now }
    {
        match self {
            Message::Request(b) => is_request(b),
            Message::Timed(b) => is_timed(b),
            Message::FastReply(b) => is_fast_reply(b),
            Message::SlowReply(b) => is_slow_reply(b),
            Message::Answer(b) => is_client_answer(b),
            Message::LogMod(b) => is_log_mod(b),
            Message::Fetch(b) => is_fetch(b),
            Message::FetchReply(b) => is_fetch_reply(b),
            Message::SyncReport(b) => is_sync_report(b),
            Message::ViewAsk(b) => is_view(b.view),
            Message::ViewChange(b) => is_view_change(b),
            Message::StartView(b) => is_start_view(b),
            Message::VectorAsk(b) => is_plain(b.nonce),
            Message::VectorTell(b) => is_nonce(b.nonce, &b.vector),
            Message::RejoinAsk(b) => is_nonce(b.nonce, &b.vector),
            Message::RejoinTell(b) => is_rejoin_tell(b),
            Message::StateAsk(b) => is_state_ask(b),
            Message::StateTell(b) => is_state_tell(b),
        }
    }
}
