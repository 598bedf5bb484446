//! What a text says: events, open requests, and the history.

use nz_base::{IdList, List};
use nz_machine::{ClientEvent, History};

/// What a text says: the events, the requests without an acceptance, and the history.
#[derive(Drop)]
pub struct Printed {
    pub events: List<ClientEvent>,
    pub unanswered: IdList,
    pub history: History,
}
