//! How many bytes the body of a message takes, so that its frame gets its memory at once.

ghost use Rattle.std.specs.Prelude.{◌≤◌};

use super::message::Message;
use nz_base::{Blob, Entry};
use nz_cv::CrashVector;
use nz_store::Answer;

fn of_vector(vector: &CrashVector) -> usize
    ensures { result ≤ 1021 }
{
    1 + 4 * usize::from(vector.size())
}

fn of_command(command: &Blob) -> usize {
    command.as_slice().len().saturating_add(2)
}

fn of_answer(answer: &Answer) -> usize {
    match answer {
        Answer::Value(value) => value.as_slice().len().saturating_add(3),
        Answer::Done | Answer::Absent | Answer::Differs => 1,
    }
}

// A flag, and the answer where there is one.
fn of_choice(answer: &Option<Answer>) -> usize {
    match answer {
        Some(answer) => of_answer(answer).saturating_add(1),
        None => 1,
    }
}

// Each entry has a key, and a command after its length.
fn of_entries(entries: &[Entry]) -> usize {
    let mut size: usize = 0;
    for entry in entries {
        size = size.saturating_add(of_command(&entry.command).saturating_add(16));
    }
    size
}

/// The size of the message's body.
pub fn size_of(message: &Message) -> usize {
    match message {
        Message::Request(b) => of_command(&b.command).saturating_add(4),
        Message::Timed(b) => of_command(&b.command).saturating_add(24),
        Message::FastReply(b) => of_choice(&b.answer).saturating_add(40 + of_vector(&b.vector)),
        Message::SlowReply(_) => 20,
        Message::Answer(b) => of_answer(&b.answer).saturating_add(5),
        Message::LogMod(b) => 17 + of_vector(&b.vector) + 16 * b.keys.len() as usize,
        Message::Fetch(b) => 9 + 8 * b.ids.len() as usize,
        Message::FetchReply(b) => of_entries(b.entries.as_slice()).saturating_add(12),
        Message::SyncReport(_) => 12,
        Message::ViewAsk(_) | Message::VectorAsk(_) => 8,
        Message::ViewChange(b) => {
            of_entries(b.entries.as_slice()).saturating_add(28 + of_vector(&b.vector))
        }
        Message::StartView(b) => {
            of_entries(b.entries.as_slice()).saturating_add(16 + of_vector(&b.vector))
        }
        Message::VectorTell(b) => 8 + of_vector(&b.vector),
        Message::RejoinAsk(b) => 8 + of_vector(&b.vector),
        Message::RejoinTell(b) => 16 + of_vector(&b.vector),
        Message::StateAsk(b) => 16 + of_vector(&b.vector),
        Message::StateTell(b) => {
            of_entries(b.entries.as_slice()).saturating_add(24 + of_vector(&b.vector))
        }
    }
}
