//! The kinds of messages by number and name.

ghost use Rattle.std.specs.Prelude.{◌≡◌};
ghost use Rattle.nz_script.specs.Messages as messages_words;
ghost use Rattle.nz_script.specs.Messages.{row_of, kind_of_message};

/// A kind of message.
#[derive(Clone, Copy, Debug)]
pub enum Message {
    Request,
    Timed,
    FastReply,
    SlowReply,
    Answer,
    LogMod,
    Fetch,
    FetchReply,
    SyncReport,
    ViewAsk,
    ViewChange,
    StartView,
    VectorAsk,
    VectorTell,
    RejoinAsk,
    RejoinTell,
    StateAsk,
    StateTell,
}

/// The kinds of messages have the numbers 1 to this.
pub const KIND_COUNT: u8 = 18;

const MESSAGES: [Message; KIND_COUNT as usize] = [
    Message::Request,
    Message::Timed,
    Message::FastReply,
    Message::SlowReply,
    Message::Answer,
    Message::LogMod,
    Message::Fetch,
    Message::FetchReply,
    Message::SyncReport,
    Message::ViewAsk,
    Message::ViewChange,
    Message::StartView,
    Message::VectorAsk,
    Message::VectorTell,
    Message::RejoinAsk,
    Message::RejoinTell,
    Message::StateAsk,
    Message::StateTell,
];

fn row(kind: u8, name: &'static [u8]) -> (u8, &'static [u8])
    ensures kind { result.0 ≡ kind }
    ensures name { result.1.now ≡ name.now }
{
    (kind, name)
}

impl Message {
    /// The number and the name of the kind.
    fn row(self) -> (u8, &'static [u8])
        ensures kind { result.0 ≡ (row_of self).0 }
        ensures name { result.1.now ≡ (row_of self).1 }
    {
        match self {
            Message::Request => row(1, b"request"),
            Message::Timed => row(2, b"timed"),
            Message::FastReply => row(3, b"fast-reply"),
            Message::SlowReply => row(4, b"slow-reply"),
            Message::Answer => row(5, b"answer"),
            Message::LogMod => row(6, b"log-mod"),
            Message::Fetch => row(7, b"fetch"),
            Message::FetchReply => row(8, b"fetch-reply"),
            Message::SyncReport => row(9, b"sync-report"),
            Message::ViewAsk => row(10, b"view-ask"),
            Message::ViewChange => row(11, b"view-change"),
            Message::StartView => row(12, b"start-view"),
            Message::VectorAsk => row(13, b"vector-ask"),
            Message::VectorTell => row(14, b"vector-tell"),
            Message::RejoinAsk => row(15, b"rejoin-ask"),
            Message::RejoinTell => row(16, b"rejoin-tell"),
            Message::StateAsk => row(17, b"state-ask"),
            Message::StateTell => row(18, b"state-tell"),
        }
    }
}

fn kind_in(messages: &[Message], name: &[u8]) -> Option<u8>
    ensures { result ≡ kind_of_message messages.now name.now }
{
    let [message, others @ ..] = messages else {
        return None;
    };
    let row = message.row();
    if row.1 == name {
        Some(row.0)
    } else {
        kind_in(others, name)
    }
}

fn name_in(messages: &[Message], kind: u8) -> &'static [u8]
    ensures { result.now ≡ messages_words.name_in messages.now kind }
{
    let [message, others @ ..] = messages else {
        return b"";
    };
    let row = message.row();
    if row.0 == kind {
        row.1
    } else {
        name_in(others, kind)
    }
}

#[tactic(auto, unfolding(crate::specs::Messages::kind_named))]
/// The number of the kind with this name.
pub fn kind_named(name: &[u8]) -> Option<u8>
    ensures { result ≡ messages_words.kind_named name.now }
{
    kind_in(&MESSAGES, name)
}

#[tactic(auto, unfolding(crate::specs::Messages::name_of))]
/// The name of the kind with this number, empty where there is none.
pub fn name_of(kind: u8) -> &'static [u8]
    ensures { result.now ≡ messages_words.name_of kind }
{
    name_in(&MESSAGES, kind)
}
