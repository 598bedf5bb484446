//! What clients do.

use nz_base::{Blob, Id, List};
use nz_msg::Path;
use nz_store::Answer;

/// A client sent a request for the first time, or accepted its answer.
#[derive(Debug, Drop)]
pub enum ClientEvent {
    Sent { id: Id, command: Blob },
    Accepted { id: Id, answer: Answer, path: Path },
}

/// An event with the place of its record in the journal, from 0, and the tick of that.
#[derive(Debug, Drop)]
pub struct EventAt {
    pub place: u32,
    pub tick: u32,
    pub event: ClientEvent,
}

pub type EventList = List<EventAt>;
