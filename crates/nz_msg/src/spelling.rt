//! Writing of bodies, one function a kind.

ghost use Rattle.std.specs.Prelude.{◌≡◌, ◌++◌, [], OnOk};
ghost use Rattle.nz_msg.specs.Messages.{request, timed, fast_reply, slow_reply, client_answer, log_mod, fetch, fetch_reply};
ghost use Rattle.nz_msg.specs.Messages.{sync_report, view_ask, view_change, start_view, vector_ask, vector_tell, rejoin_ask};
ghost use Rattle.nz_msg.specs.Messages.{rejoin_tell, state_ask, state_tell, Fits, kind_of, body_of};
ghost use Rattle.byteorder.specs.Endian.{big_bytes};
ghost use Rattle.nz_msg.specs.Codec.{◌then◌};
ghost use Rattle.nz_msg.specs.Fields.{u64, id, digest};
ghost use Rattle.nz_msg.specs.Writing.{Adds};

use super::message::{
    AnswerBody, FastReplyBody, FetchBody, FetchReplyBody, LogModBody, Message, RejoinTellBody,
    RequestBody, SlowReplyBody, StartViewBody, StateAskBody, StateTellBody, TimedBody,
    ViewChangeBody,
};
use super::writing::{
    put_answer, put_answer_if_any, put_entries, put_ids, put_keys, put_path, put_two_u32, put_u32,
    put_u64, put_u64_u32, put_vector, write_number_and_id,
};
use byteorder::{BigEndian, ByteOrder};
use bytes::BufMut;
use nz_base::NoMemory;
use nz_cv::CrashVector;

// The number and the length of the command, at once, and then the command.
#[tactic(auto, unfolding(crate::specs::Codec::number_bytes))]
fn put_request<B: BufMut>(out: &mut B, b: &RequestBody) -> Result<(), NoMemory>
    requires { request.fits b.now }
    ensures { OnOk result (Adds (B.written out.old) (B.written out.new) (request.put b.now)) }
{
    let command = b.command.as_slice();
    let mut head = [0; 6];
    BigEndian::write_u32(&mut head, b.num);
    BigEndian::write_u16(&mut head[4..], command.len() as u16);
    out.put_slice(&head)?;
    out.put_slice(command)?;
    Ok(())
}

// The bytes of a timed request up to its command.
fn timed_head(b: &TimedBody, len: u16) -> [u8; 26]
    ensures { result ≡ big_bytes 8 b.now.sent ++ (big_bytes 8 b.now.deadline
        ++ (big_bytes 4 b.now.id.client ++ (big_bytes 4 b.now.id.num ++ big_bytes 2 len))) }
{
    let mut head = [0; 26];
    BigEndian::write_u64(&mut head, b.sent);
    write_number_and_id(&mut head[8..], b.deadline, b.id);
    BigEndian::write_u16(&mut head[24..], len);
    head
}

#[tactic(auto, unfolding(crate::specs::Codec::number_bytes))]
fn put_timed<B: BufMut>(out: &mut B, b: &TimedBody) -> Result<(), NoMemory>
    requires { timed.fits b.now }
    ensures { OnOk result (Adds (B.written out.old) (B.written out.new) (timed.put b.now)) }
{
    let command = b.command.as_slice();
    out.put_slice(&timed_head(b, command.len() as u16))?;
    out.put_slice(command)?;
    Ok(())
}

// All up to the vector, at once.
#[tactic(auto, unfolding(crate::specs::Codec::number_bytes))]
fn put_fast_reply_head<B: BufMut>(out: &mut B, b: &FastReplyBody) -> Result<(), NoMemory>
    ensures { OnOk result (Adds (B.written out.old) (B.written out.new) ((u64 then id then digest).put (b.now.view, (b.now.id, b.now.digest)))) }
{
    let mut head = [0; 36];
    write_number_and_id(&mut head, b.view, b.id);
    head[16..].copy_from_slice(b.digest.as_bytes());
    out.put_slice(&head)?;
    Ok(())
}

fn put_fast_reply<B: BufMut>(out: &mut B, b: &FastReplyBody) -> Result<(), NoMemory>
    requires { fast_reply.fits b.now }
    ensures { OnOk result (Adds (B.written out.old) (B.written out.new) (fast_reply.put b.now)) }
{
    put_fast_reply_head(out, b)?;
    put_vector(out, &b.vector)?;
    put_u32(out, b.delay)?;
    put_answer_if_any(out, &b.answer)
}

#[tactic(auto, unfolding(crate::specs::Codec::number_bytes))]
fn put_slow_reply<B: BufMut>(out: &mut B, b: &SlowReplyBody) -> Result<(), NoMemory>
    ensures { OnOk result (Adds (B.written out.old) (B.written out.new) (slow_reply.put b.now)) }
{
    let mut bytes = [0; 20];
    write_number_and_id(&mut bytes, b.view, b.id);
    BigEndian::write_u32(&mut bytes[16..], b.delay);
    out.put_slice(&bytes)?;
    Ok(())
}

fn put_client_answer<B: BufMut>(out: &mut B, b: &AnswerBody) -> Result<(), NoMemory>
    requires { client_answer.fits b.now }
    ensures { OnOk result (Adds (B.written out.old) (B.written out.new) (client_answer.put b.now)) }
{
    put_u32(out, b.num)?;
    put_answer(out, &b.answer)?;
    put_path(out, b.path)
}

fn put_log_mod<B: BufMut>(out: &mut B, b: &LogModBody) -> Result<(), NoMemory>
    requires { log_mod.fits b.now }
    ensures { OnOk result (Adds (B.written out.old) (B.written out.new) (log_mod.put b.now)) }
{
    put_u64(out, b.view)?;
    put_vector(out, &b.vector)?;
    put_two_u32(out, b.commit, b.start)?;
    put_keys(out, &b.keys)
}

fn put_fetch<B: BufMut>(out: &mut B, b: &FetchBody) -> Result<(), NoMemory>
    requires { fetch.fits b.now }
    ensures { OnOk result (Adds (B.written out.old) (B.written out.new) (fetch.put b.now)) }
{
    put_u64(out, b.view)?;
    put_ids(out, &b.ids)
}

#[tactic(auto, using(crate::proofs::Writes::commands_fit))]
fn put_fetch_reply<B: BufMut>(out: &mut B, b: &FetchReplyBody) -> Result<(), NoMemory>
    requires { fetch_reply.fits b.now }
    ensures { OnOk result (Adds (B.written out.old) (B.written out.new) (fetch_reply.put b.now)) }
{
    put_u64(out, b.view)?;
    put_entries(out, &b.entries)
}

#[tactic(auto, using(crate::proofs::Writes::commands_fit))]
fn put_view_change<B: BufMut>(out: &mut B, b: &ViewChangeBody) -> Result<(), NoMemory>
    requires { view_change.fits b.now }
    ensures { OnOk result (Adds (B.written out.old) (B.written out.new) (view_change.put b.now)) }
{
    put_u64(out, b.view)?;
    put_u64(out, b.last)?;
    put_vector(out, &b.vector)?;
    put_two_u32(out, b.synced, b.commit)?;
    put_entries(out, &b.entries)
}

#[tactic(auto, using(crate::proofs::Writes::commands_fit))]
fn put_start_view<B: BufMut>(out: &mut B, b: &StartViewBody) -> Result<(), NoMemory>
    requires { start_view.fits b.now }
    ensures { OnOk result (Adds (B.written out.old) (B.written out.new) (start_view.put b.now)) }
{
    put_u64(out, b.view)?;
    put_vector(out, &b.vector)?;
    put_u32(out, b.commit)?;
    put_entries(out, &b.entries)
}

// A nonce and a vector.
fn put_nonce<B: BufMut>(out: &mut B, nonce: u64, vector: &CrashVector) -> Result<(), NoMemory>
    ensures { OnOk result (Adds (B.written out.old) (B.written out.new) (vector_tell.put (record { nonce = nonce; vector = vector.now }))) }
{
    put_u64(out, nonce)?;
    put_vector(out, vector)
}

fn put_rejoin_tell<B: BufMut>(out: &mut B, b: &RejoinTellBody) -> Result<(), NoMemory>
    ensures { OnOk result (Adds (B.written out.old) (B.written out.new) (rejoin_tell.put b.now)) }
{
    put_u64(out, b.nonce)?;
    put_u64(out, b.view)?;
    put_vector(out, &b.vector)
}

fn put_state_ask<B: BufMut>(out: &mut B, b: &StateAskBody) -> Result<(), NoMemory>
    ensures { OnOk result (Adds (B.written out.old) (B.written out.new) (state_ask.put b.now)) }
{
    put_u64(out, b.nonce)?;
    put_u64(out, b.view)?;
    put_vector(out, &b.vector)
}

#[tactic(auto, using(crate::proofs::Writes::commands_fit))]
fn put_state_tell<B: BufMut>(out: &mut B, b: &StateTellBody) -> Result<(), NoMemory>
    requires { state_tell.fits b.now }
    ensures { OnOk result (Adds (B.written out.old) (B.written out.new) (state_tell.put b.now)) }
{
    put_u64(out, b.nonce)?;
    put_u64(out, b.view)?;
    put_vector(out, &b.vector)?;
    put_u32(out, b.commit)?;
    put_entries(out, &b.entries)
}

/// Writes the message's body.
pub fn put_body<B: BufMut>(out: &mut B, message: &Message) -> Result<(), NoMemory>
    requires { Fits message.now }
    ensures { OnOk result (B.written out.new ++ [] ≡ B.written out.old ++ body_of message.now) }
{
    match message {
        Message::Request(b) => put_request(out, b),
        Message::Timed(b) => put_timed(out, b),
        Message::FastReply(b) => put_fast_reply(out, b),
        Message::SlowReply(b) => put_slow_reply(out, b),
        Message::Answer(b) => put_client_answer(out, b),
        Message::LogMod(b) => put_log_mod(out, b),
        Message::Fetch(b) => put_fetch(out, b),
        Message::FetchReply(b) => put_fetch_reply(out, b),
        Message::SyncReport(b) => put_u64_u32(out, b.view, b.synced),
        Message::ViewAsk(b) => put_u64(out, b.view),
        Message::ViewChange(b) => put_view_change(out, b),
        Message::StartView(b) => put_start_view(out, b),
        Message::VectorAsk(b) => put_u64(out, b.nonce),
        Message::VectorTell(b) => put_nonce(out, b.nonce, &b.vector),
        Message::RejoinAsk(b) => put_nonce(out, b.nonce, &b.vector),
        Message::RejoinTell(b) => put_rejoin_tell(out, b),
        Message::StateAsk(b) => put_state_ask(out, b),
        Message::StateTell(b) => put_state_tell(out, b),
    }
}

/// The number that frames have for the message's kind.
pub fn kind(message: &Message) -> u8
    ensures { result ≡ kind_of message.now }
{
    match message {
        Message::Request(_) => 1,
        Message::Timed(_) => 2,
        Message::FastReply(_) => 3,
        Message::SlowReply(_) => 4,
        Message::Answer(_) => 5,
        Message::LogMod(_) => 6,
        Message::Fetch(_) => 7,
        Message::FetchReply(_) => 8,
        Message::SyncReport(_) => 9,
        Message::ViewAsk(_) => 10,
        Message::ViewChange(_) => 11,
        Message::StartView(_) => 12,
        Message::VectorAsk(_) => 13,
        Message::VectorTell(_) => 14,
        Message::RejoinAsk(_) => 15,
        Message::RejoinTell(_) => 16,
        Message::StateAsk(_) => 17,
        Message::StateTell(_) => 18,
    }
}
