//! Items, journals and histories.

use super::event::Event;
use super::records::RecordList;
use nz_base::{Actor, Blob, Id, List, Scenario};
use nz_store::Answer;

/// What an actor is to do in a tick.
#[derive(Drop)]
pub struct Item {
    pub actor: Actor,
    pub event: Event,
}

/// A scenario, and the records of a run on it, the oldest first.
#[derive(Drop)]
pub struct Journal {
    pub scenario: Scenario,
    pub records: RecordList,
}

/// An entry of a run's history, and what the one store that executes the history answers it.
#[derive(Drop)]
pub struct Executed {
    pub id: Id,
    pub command: Blob,
    pub answer: Answer,
}

/// The executed entries, in their order.
pub type History = List<Executed>;
