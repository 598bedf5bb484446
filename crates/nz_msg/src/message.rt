//! The eighteen messages.

use nz_base::{Blob, EntryList, Id, IdList, KeyList};
use nz_cv::CrashVector;
use nz_digest::Digest;
use nz_store::Answer;

/// How a request was decided: by a fast quorum or by a slow one.
#[derive(Clone, Copy, Debug, PartialEq, Eq)]
pub enum Path {
    Fast,
    Slow,
}

/// Client to proxy: a command of at least one byte and at most `MAX_COMMAND`, as the client's request `num`.
#[derive(Debug, Drop)]
pub struct RequestBody {
    pub num: u32,
    pub command: Blob,
}

/// Proxy to replica: a request with the proxy's clock when it was sent, and with its deadline, at most
/// 2^63 - 1, both in clock units.
#[derive(Debug, Drop)]
pub struct TimedBody {
    pub sent: u64,
    pub deadline: u64,
    pub id: Id,
    pub command: Blob,
}

/// Replica to proxy: the request is in the log. The digest is that of the log up to it, `delay` is how long the timed
/// message took, in clock units, and only the leader has an answer.
#[derive(Debug, Drop)]
pub struct FastReplyBody {
    pub view: u64,
    pub id: Id,
    pub digest: Digest,
    pub vector: CrashVector,
    pub delay: u32,
    pub answer: Option<Answer>,
}

/// Replica to proxy: the request is synced with the leader's log.
#[derive(Debug, Drop)]
pub struct SlowReplyBody {
    pub view: u64,
    pub id: Id,
    pub delay: u32,
}

/// Proxy to client: the answer to the client's request `num`.
#[derive(Debug, Drop)]
pub struct AnswerBody {
    pub num: u32,
    pub answer: Answer,
    pub path: Path,
}

/// Leader to replica: at most 64 keys of the leader's log from the place `start` on.
#[derive(Debug, Drop)]
pub struct LogModBody {
    pub view: u64,
    pub vector: CrashVector,
    pub commit: u32,
    pub start: u32,
    pub keys: KeyList,
}

/// Replica to leader: 1 to 64 ids whose entries are missing.
#[derive(Debug, Drop)]
pub struct FetchBody {
    pub view: u64,
    pub ids: IdList,
}

/// Leader to replica: at most 64 entries.
#[derive(Debug, Drop)]
pub struct FetchReplyBody {
    pub view: u64,
    pub entries: EntryList,
}

/// Replica to leader: how many entries are synced.
#[derive(Debug, Drop)]
pub struct SyncReportBody {
    pub view: u64,
    pub synced: u32,
}

/// Replica to replica: to enter the view.
#[derive(Debug, Drop)]
pub struct ViewAskBody {
    pub view: u64,
}

/// Replica to the new view's leader: the log, the last view in which the replica was in normal
/// operation, and how many entries are synced and committed.
#[derive(Debug, Drop)]
pub struct ViewChangeBody {
    pub view: u64,
    pub last: u64,
    pub vector: CrashVector,
    pub synced: u32,
    pub commit: u32,
    pub entries: EntryList,
}

/// The new view's leader to replica: the log with which the view starts.
#[derive(Debug, Drop)]
pub struct StartViewBody {
    pub view: u64,
    pub vector: CrashVector,
    pub commit: u32,
    pub entries: EntryList,
}

/// Replica that has lost its memory to replica: for its crash vector.
#[derive(Debug, Drop)]
pub struct VectorAskBody {
    pub nonce: u64,
}

/// The reply to a vector-ask, with its nonce.
#[derive(Debug, Drop)]
pub struct VectorTellBody {
    pub nonce: u64,
    pub vector: CrashVector,
}

/// Replica that has a crash counter again to replica: for its view.
#[derive(Debug, Drop)]
pub struct RejoinAskBody {
    pub nonce: u64,
    pub vector: CrashVector,
}

/// The reply to a rejoin-ask, with its nonce.
#[derive(Debug, Drop)]
pub struct RejoinTellBody {
    pub nonce: u64,
    pub view: u64,
    pub vector: CrashVector,
}

/// Replica that rejoins to the leader of the view: for its log.
#[derive(Debug, Drop)]
pub struct StateAskBody {
    pub nonce: u64,
    pub view: u64,
    pub vector: CrashVector,
}

/// The reply to a state-ask, with its nonce.
#[derive(Debug, Drop)]
pub struct StateTellBody {
    pub nonce: u64,
    pub view: u64,
    pub vector: CrashVector,
    pub commit: u32,
    pub entries: EntryList,
}

/// What actors send each other. Views are at most 2^62 - 1, and keys in a list rise and differ in their
/// ids.
#[derive(Debug, Drop)]
pub enum Message {
    Request(RequestBody),
    Timed(TimedBody),
    FastReply(FastReplyBody),
    SlowReply(SlowReplyBody),
    Answer(AnswerBody),
    LogMod(LogModBody),
    Fetch(FetchBody),
    FetchReply(FetchReplyBody),
    SyncReport(SyncReportBody),
    ViewAsk(ViewAskBody),
    ViewChange(ViewChangeBody),
    StartView(StartViewBody),
    VectorAsk(VectorAskBody),
    VectorTell(VectorTellBody),
    RejoinAsk(RejoinAskBody),
    RejoinTell(RejoinTellBody),
    StateAsk(StateAskBody),
    StateTell(StateTellBody),
}
