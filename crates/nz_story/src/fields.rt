//! The fields of each kind of message, each written after what is there.

ghost use Rattle.std.specs.Prelude.{◌≡◌, ◌++◌, OnOk};
ghost use Rattle.nz_story.specs.Fields as specs;
ghost use Rattle.nz_story.specs.Fields.{answer_field, command_field, nonce_fields, rejoin_fields, request_fields, timed_fields};
ghost use Rattle.nz_story.specs.Fields.{place_fields, fast_reply_fields, slow_reply_fields, answer_fields, log_mod_fields, fetch_fields};
ghost use Rattle.nz_story.specs.Fields.{fetch_reply_fields, sync_report_fields, report_fields, view_change_fields, start_view_fields};
ghost use Rattle.nz_story.specs.Fields.{state_tell_fields, fields_of};

use super::words::{
    put_digest, put_entries, put_id, put_ids, put_keys, put_nonce, put_number_field, put_vector,
    put_view,
};
use nz_base::NoMemory;
use nz_cv::CrashVector;
use nz_msg::{
    AnswerBody, FastReplyBody, FetchBody, FetchReplyBody, LogModBody, Message, RequestBody,
    SlowReplyBody, StartViewBody, StateTellBody, SyncReportBody, TimedBody, ViewChangeBody,
};
use nz_script::put;
use nz_store::Answer;
use nz_text::{put_answer, put_found, put_path};

fn put_request(out: &mut Vec<u8>, body: &RequestBody) -> Result<(), NoMemory>
    ensures { OnOk result (out.new.items ≡ out.old.items ++ request_fields body.now) }
{
    put_number_field(out, b"num", u64::from(body.num))?;
    put(out, b" command")?;
    put_found(out, body.command.as_slice())
}

fn put_timed(out: &mut Vec<u8>, body: &TimedBody) -> Result<(), NoMemory>
    ensures { OnOk result (out.new.items ≡ out.old.items ++ timed_fields body.now) }
{
    put_number_field(out, b"sent", body.sent)?;
    put_number_field(out, b"deadline", body.deadline)?;
    put_id(out, body.id)
}

fn put_place(out: &mut Vec<u8>, body: &FastReplyBody) -> Result<(), NoMemory>
    ensures { OnOk result (out.new.items ≡ out.old.items ++ place_fields body.now) }
{
    put_view(out, body.view)?;
    put_id(out, body.id)?;
    put_digest(out, &body.digest)?;
    put_vector(out, &body.vector)
}

fn put_leader_answer(out: &mut Vec<u8>, answer: &Option<Answer>) -> Result<(), NoMemory>
    ensures { OnOk result (out.new.items ≡ out.old.items ++ answer_field answer.now) }
{
    match answer {
        None => Ok(()),
        Some(answer) => {
            put(out, b" answer")?;
            put_answer(out, answer)
        }
    }
}

fn put_fast_reply(out: &mut Vec<u8>, body: &FastReplyBody) -> Result<(), NoMemory>
    ensures { OnOk result (out.new.items ≡ out.old.items ++ fast_reply_fields body.now) }
{
    put_place(out, body)?;
    put_number_field(out, b"delay", u64::from(body.delay))?;
    put_leader_answer(out, &body.answer)
}

fn put_slow_reply(out: &mut Vec<u8>, body: &SlowReplyBody) -> Result<(), NoMemory>
    ensures { OnOk result (out.new.items ≡ out.old.items ++ slow_reply_fields body.now) }
{
    put_view(out, body.view)?;
    put_id(out, body.id)?;
    put_number_field(out, b"delay", u64::from(body.delay))
}

fn put_client_answer(out: &mut Vec<u8>, body: &AnswerBody) -> Result<(), NoMemory>
    ensures { OnOk result (out.new.items ≡ out.old.items ++ answer_fields body.now) }
{
    put_number_field(out, b"num", u64::from(body.num))?;
    put(out, b" answer")?;
    put_answer(out, &body.answer)?;
    put(out, b" path")?;
    put_path(out, body.path)
}

fn put_log_mod(out: &mut Vec<u8>, body: &LogModBody) -> Result<(), NoMemory>
    ensures { OnOk result (out.new.items ≡ out.old.items ++ log_mod_fields body.now) }
{
    put_view(out, body.view)?;
    put_vector(out, &body.vector)?;
    put_number_field(out, b"commit", u64::from(body.commit))?;
    put_number_field(out, b"start", u64::from(body.start))?;
    put_keys(out, body.keys.as_slice())
}

fn put_fetch(out: &mut Vec<u8>, body: &FetchBody) -> Result<(), NoMemory>
    ensures { OnOk result (out.new.items ≡ out.old.items ++ fetch_fields body.now) }
{
    put_view(out, body.view)?;
    put_ids(out, body.ids.as_slice())
}

fn put_fetch_reply(out: &mut Vec<u8>, body: &FetchReplyBody) -> Result<(), NoMemory>
    ensures { OnOk result (out.new.items ≡ out.old.items ++ fetch_reply_fields body.now) }
{
    put_view(out, body.view)?;
    put_entries(out, body.entries.len())
}

fn put_sync_report(out: &mut Vec<u8>, body: &SyncReportBody) -> Result<(), NoMemory>
    ensures { OnOk result (out.new.items ≡ out.old.items ++ sync_report_fields body.now) }
{
    put_view(out, body.view)?;
    put_number_field(out, b"synced", u64::from(body.synced))
}

fn put_report(out: &mut Vec<u8>, body: &ViewChangeBody) -> Result<(), NoMemory>
    ensures { OnOk result (out.new.items ≡ out.old.items ++ report_fields body.now) }
{
    put_view(out, body.view)?;
    put_number_field(out, b"last", body.last)?;
    put_vector(out, &body.vector)
}

fn put_view_change(out: &mut Vec<u8>, body: &ViewChangeBody) -> Result<(), NoMemory>
    ensures { OnOk result (out.new.items ≡ out.old.items ++ view_change_fields body.now) }
{
    put_report(out, body)?;
    put_number_field(out, b"synced", u64::from(body.synced))?;
    put_number_field(out, b"commit", u64::from(body.commit))?;
    put_entries(out, body.entries.len())
}

fn put_start_view(out: &mut Vec<u8>, body: &StartViewBody) -> Result<(), NoMemory>
    ensures { OnOk result (out.new.items ≡ out.old.items ++ start_view_fields body.now) }
{
    put_view(out, body.view)?;
    put_vector(out, &body.vector)?;
    put_number_field(out, b"commit", u64::from(body.commit))?;
    put_entries(out, body.entries.len())
}

fn put_nonce_and_vector(out: &mut Vec<u8>, nonce: u64, vector: &CrashVector) -> Result<(), NoMemory>
    ensures { OnOk result (out.new.items ≡ out.old.items ++ nonce_fields nonce vector.now) }
{
    put_nonce(out, nonce)?;
    put_vector(out, vector)
}

fn put_rejoin(
    out: &mut Vec<u8>,
    nonce: u64,
    view: u64,
    vector: &CrashVector,
) -> Result<(), NoMemory>
    ensures { OnOk result (out.new.items ≡ out.old.items ++ rejoin_fields nonce view vector.now) }
{
    put_nonce(out, nonce)?;
    put_view(out, view)?;
    put_vector(out, vector)
}

fn put_state_tell(out: &mut Vec<u8>, body: &StateTellBody) -> Result<(), NoMemory>
    ensures { OnOk result (out.new.items ≡ out.old.items ++ state_tell_fields body.now) }
{
    put_rejoin(out, body.nonce, body.view, &body.vector)?;
    put_number_field(out, b"commit", u64::from(body.commit))?;
    put_entries(out, body.entries.len())
}

/// Writes the fields of the message.
#[tactic(auto, unfolding(crate::specs::Fields::fields_of))]
pub fn put_fields(out: &mut Vec<u8>, message: &Message) -> Result<(), NoMemory>
    ensures { OnOk result (out.new.items ≡ out.old.items ++ fields_of message.now) }
{
    match message {
        Message::Request(body) => put_request(out, body),
        Message::Timed(body) => put_timed(out, body),
        Message::FastReply(body) => put_fast_reply(out, body),
        Message::SlowReply(body) => put_slow_reply(out, body),
        Message::Answer(body) => put_client_answer(out, body),
        Message::LogMod(body) => put_log_mod(out, body),
        Message::Fetch(body) => put_fetch(out, body),
        Message::FetchReply(body) => put_fetch_reply(out, body),
        Message::SyncReport(body) => put_sync_report(out, body),
        Message::ViewAsk(body) => put_view(out, body.view),
        Message::ViewChange(body) => put_view_change(out, body),
        Message::StartView(body) => put_start_view(out, body),
        Message::VectorAsk(body) => put_nonce(out, body.nonce),
        Message::VectorTell(body) => put_nonce_and_vector(out, body.nonce, &body.vector),
        Message::RejoinAsk(body) => put_nonce_and_vector(out, body.nonce, &body.vector),
        Message::RejoinTell(body) => put_rejoin(out, body.nonce, body.view, &body.vector),
        Message::StateAsk(body) => put_rejoin(out, body.nonce, body.view, &body.vector),
        Message::StateTell(body) => put_state_tell(out, body),
    }
}
