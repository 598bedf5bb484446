//! Reading of bodies, one function a kind. Each reads a whole body and gives its message.

ghost use Rattle.std.specs.Prelude.{◌≡◌, ◌<◌, length, OnOk, OnErr, IfErr};
ghost use Rattle.nz_msg.specs.declared.fault.Fault.TheVariants.{Bad};
ghost use Rattle.nz_msg.specs.declared.message.Message.TheVariants as messages;
ghost use Rattle.nz_msg.specs.Messages.{request, timed, fast_reply, slow_reply, client_answer, log_mod, fetch, fetch_reply, sync_report, view_ask};
ghost use Rattle.nz_msg.specs.Messages.{view_change, start_view, vector_ask, vector_tell, rejoin_ask, rejoin_tell, state_ask, state_tell, whole};
ghost use Rattle.nz_msg.specs.Messages.{body_at};
ghost use Rattle.nz_msg.specs.Reading.{Gives};

use super::fault::Fault;
use super::lists::{entries_at, ids_at, keys_at, vector_at};
use super::message::{
    AnswerBody, FastReplyBody, FetchBody, FetchReplyBody, LogModBody, Message, RejoinAskBody,
    RejoinTellBody, RequestBody, SlowReplyBody, StartViewBody, StateAskBody, StateTellBody,
    SyncReportBody, TimedBody, VectorAskBody, VectorTellBody, ViewAskBody, ViewChangeBody,
};
use super::reading::{
    answer_at, answer_if_any, command_at, deadline_at, digest_at, id_at, path_at, u32_at, u64_at,
    view_at,
};
use super::rest::Rest;
use nz_base::{MAX_ENTRIES, MAX_KEYS};
use std::alloc::Global;

/// The most entries that answer a fetch: no more than the ids that it may ask for.
pub const MAX_FETCHED: u32 = MAX_KEYS as u32;

// Nothing follows the last field.
fn end(rest: Rest<'_>) -> Result<(), Fault>
    ensures ok { OnOk result (length rest.entry ≡ 0) }
    ensures more { OnErr result (0 < length rest.entry) }
    ensures fault { IfErr result (λ fault. fault ≡ Bad (length rest.entry)) }
{
    if !rest.is_empty() {
        return Err(Fault::at(rest));
    }
    Ok(())
}

fn request_of(bytes: Rest<'_>) -> Result<Message, Fault>
    ensures { Gives (λ m. m) result (whole request messages.Request bytes.entry) }
{
    let (num, rest) = u32_at(bytes)?;
    let (command, rest) = command_at(rest)?;
    end(rest)?;
    Ok(Message::Request(RequestBody { num, command }))
}

fn timed_of(bytes: Rest<'_>) -> Result<Message, Fault>
    ensures { Gives (λ m. m) result (whole timed messages.Timed bytes.entry) }
{
    let (sent, rest) = u64_at(bytes)?;
    let (deadline, rest) = deadline_at(rest)?;
    let (id, rest) = id_at(rest)?;
    let (command, rest) = command_at(rest)?;
    end(rest)?;
    Ok(Message::Timed(TimedBody {
        sent,
        deadline,
        id,
        command,
    }))
}

fn fast_reply_of(alloc: Global, bytes: Rest<'_>) -> Result<Message, Fault>
    ensures { Gives (λ m. m) result (whole fast_reply messages.FastReply bytes.entry) }
{
    let (view, rest) = view_at(bytes)?;
    let (id, rest) = id_at(rest)?;
    let (digest, rest) = digest_at(rest)?;
    let (vector, rest) = vector_at(rest)?;
    let (delay, rest) = u32_at(rest)?;
    let (answer, rest) = answer_if_any(alloc, rest)?;
    end(rest)?;
    Ok(Message::FastReply(FastReplyBody {
        view,
        id,
        digest,
        vector,
        delay,
        answer,
    }))
}

fn slow_reply_of(bytes: Rest<'_>) -> Result<Message, Fault>
    ensures { Gives (λ m. m) result (whole slow_reply messages.SlowReply bytes.entry) }
{
    let (view, rest) = view_at(bytes)?;
    let (id, rest) = id_at(rest)?;
    let (delay, rest) = u32_at(rest)?;
    end(rest)?;
    Ok(Message::SlowReply(SlowReplyBody { view, id, delay }))
}

fn answer_of(alloc: Global, bytes: Rest<'_>) -> Result<Message, Fault>
    ensures { Gives (λ m. m) result (whole client_answer messages.Answer bytes.entry) }
{
    let (num, rest) = u32_at(bytes)?;
    let (answer, rest) = answer_at(alloc, rest)?;
    let (path, rest) = path_at(rest)?;
    end(rest)?;
    Ok(Message::Answer(AnswerBody { num, answer, path }))
}

fn log_mod_of(alloc: Global, bytes: Rest<'_>) -> Result<Message, Fault>
    ensures { Gives (λ m. m) result (whole log_mod messages.LogMod bytes.entry) }
{
    let (view, rest) = view_at(bytes)?;
    let (vector, rest) = vector_at(rest)?;
    let (commit, rest) = u32_at(rest)?;
    let (start, rest) = u32_at(rest)?;
    let (keys, rest) = keys_at(alloc, rest)?;
    end(rest)?;
    Ok(Message::LogMod(LogModBody {
        view,
        vector,
        commit,
        start,
        keys,
    }))
}

fn fetch_of(alloc: Global, bytes: Rest<'_>) -> Result<Message, Fault>
    ensures { Gives (λ m. m) result (whole fetch messages.Fetch bytes.entry) }
{
    let (view, rest) = view_at(bytes)?;
    let (ids, rest) = ids_at(alloc, rest)?;
    end(rest)?;
    Ok(Message::Fetch(FetchBody { view, ids }))
}

fn fetch_reply_of(alloc: Global, bytes: Rest<'_>) -> Result<Message, Fault>
    ensures { Gives (λ m. m) result (whole fetch_reply messages.FetchReply bytes.entry) }
{
    let (view, rest) = view_at(bytes)?;
    let (entries, rest) = entries_at(alloc, rest, 0, MAX_FETCHED)?;
    end(rest)?;
    Ok(Message::FetchReply(FetchReplyBody { view, entries }))
}

fn sync_report_of(bytes: Rest<'_>) -> Result<Message, Fault>
    ensures { Gives (λ m. m) result (whole sync_report messages.SyncReport bytes.entry) }
{
    let (view, rest) = view_at(bytes)?;
    let (synced, rest) = u32_at(rest)?;
    end(rest)?;
    Ok(Message::SyncReport(SyncReportBody { view, synced }))
}

fn view_ask_of(bytes: Rest<'_>) -> Result<Message, Fault>
    ensures { Gives (λ m. m) result (whole view_ask messages.ViewAsk bytes.entry) }
{
    let (view, rest) = view_at(bytes)?;
    end(rest)?;
    Ok(Message::ViewAsk(ViewAskBody { view }))
}

fn view_change_of(alloc: Global, bytes: Rest<'_>) -> Result<Message, Fault>
    ensures { Gives (λ m. m) result (whole view_change messages.ViewChange bytes.entry) }
{
    let (view, rest) = view_at(bytes)?;
    let (last, rest) = view_at(rest)?;
    let (vector, rest) = vector_at(rest)?;
    let (synced, rest) = u32_at(rest)?;
    let (commit, rest) = u32_at(rest)?;
    let (entries, rest) = entries_at(alloc, rest, synced.max(commit), MAX_ENTRIES)?;
    end(rest)?;
    Ok(Message::ViewChange(ViewChangeBody {
        view,
        last,
        vector,
        synced,
        commit,
        entries,
    }))
}

fn start_view_of(alloc: Global, bytes: Rest<'_>) -> Result<Message, Fault>
    ensures { Gives (λ m. m) result (whole start_view messages.StartView bytes.entry) }
{
    let (view, rest) = view_at(bytes)?;
    let (vector, rest) = vector_at(rest)?;
    let (commit, rest) = u32_at(rest)?;
    let (entries, rest) = entries_at(alloc, rest, commit, MAX_ENTRIES)?;
    end(rest)?;
    Ok(Message::StartView(StartViewBody {
        view,
        vector,
        commit,
        entries,
    }))
}

fn vector_ask_of(bytes: Rest<'_>) -> Result<Message, Fault>
    ensures { Gives (λ m. m) result (whole vector_ask messages.VectorAsk bytes.entry) }
{
    let (nonce, rest) = u64_at(bytes)?;
    end(rest)?;
    Ok(Message::VectorAsk(VectorAskBody { nonce }))
}

fn vector_tell_of(bytes: Rest<'_>) -> Result<Message, Fault>
    ensures { Gives (λ m. m) result (whole vector_tell messages.VectorTell bytes.entry) }
{
    let (nonce, rest) = u64_at(bytes)?;
    let (vector, rest) = vector_at(rest)?;
    end(rest)?;
    Ok(Message::VectorTell(VectorTellBody { nonce, vector }))
}

fn rejoin_ask_of(bytes: Rest<'_>) -> Result<Message, Fault>
    ensures { Gives (λ m. m) result (whole rejoin_ask messages.RejoinAsk bytes.entry) }
{
    let (nonce, rest) = u64_at(bytes)?;
    let (vector, rest) = vector_at(rest)?;
    end(rest)?;
    Ok(Message::RejoinAsk(RejoinAskBody { nonce, vector }))
}

fn rejoin_tell_of(bytes: Rest<'_>) -> Result<Message, Fault>
    ensures { Gives (λ m. m) result (whole rejoin_tell messages.RejoinTell bytes.entry) }
{
    let (nonce, rest) = u64_at(bytes)?;
    let (view, rest) = view_at(rest)?;
    let (vector, rest) = vector_at(rest)?;
    end(rest)?;
    Ok(Message::RejoinTell(RejoinTellBody {
        nonce,
        view,
        vector,
    }))
}

fn state_ask_of(bytes: Rest<'_>) -> Result<Message, Fault>
    ensures { Gives (λ m. m) result (whole state_ask messages.StateAsk bytes.entry) }
{
    let (nonce, rest) = u64_at(bytes)?;
    let (view, rest) = view_at(rest)?;
    let (vector, rest) = vector_at(rest)?;
    end(rest)?;
    Ok(Message::StateAsk(StateAskBody {
        nonce,
        view,
        vector,
    }))
}

fn state_tell_of(alloc: Global, bytes: Rest<'_>) -> Result<Message, Fault>
    ensures { Gives (λ m. m) result (whole state_tell messages.StateTell bytes.entry) }
{
    let (nonce, rest) = u64_at(bytes)?;
    let (view, rest) = view_at(rest)?;
    let (vector, rest) = vector_at(rest)?;
    let (commit, rest) = u32_at(rest)?;
    let (entries, rest) = entries_at(alloc, rest, commit, MAX_ENTRIES)?;
    end(rest)?;
    Ok(Message::StateTell(StateTellBody {
        nonce,
        view,
        vector,
        commit,
        entries,
    }))
}

/// The message whose body of the kind the bytes are, all of the bytes.
#[tactic(auto, unfolding(crate::specs::Messages::body_at))]
pub fn message_of(alloc: Global, kind: u8, bytes: Rest<'_>) -> Result<Message, Fault>
    ensures { Gives (λ m. m) result (body_at kind bytes.entry) }
{
    match kind {
        1 => request_of(bytes),
        2 => timed_of(bytes),
        3 => fast_reply_of(alloc, bytes),
        4 => slow_reply_of(bytes),
        5 => answer_of(alloc, bytes),
        6 => log_mod_of(alloc, bytes),
        7 => fetch_of(alloc, bytes),
        8 => fetch_reply_of(alloc, bytes),
        9 => sync_report_of(bytes),
        10 => view_ask_of(bytes),
        11 => view_change_of(alloc, bytes),
        12 => start_view_of(alloc, bytes),
        13 => vector_ask_of(bytes),
        14 => vector_tell_of(bytes),
        15 => rejoin_ask_of(bytes),
        16 => rejoin_tell_of(bytes),
        17 => state_ask_of(bytes),
        18 => state_tell_of(alloc, bytes),
        _ => Err(Fault::at(bytes)),
    }
}
