//! A batch: what is due to one actor in a tick, taken by a worker as a whole.

ghost use Rattle.std.specs.Prelude.{◌≡◌};

use nz_base::{Actor, List};
use nz_machine::Event;

/// What is due to one actor in a tick, which was taken as a whole. It must be recorded or given up.
pub struct Batch {
    /// The batches of a run are numbered from 1 on, as they are taken.
    pub number: u64,
    pub actor: Actor,
    pub events: List<Event>,
}

impl Batch {
    /// The number, when the batch is spent.
    pub(crate) fn into_number(self) -> u64
        ensures { result ≡ self.number }
    {
        let Batch {
            number,
            actor: _,
            events: _,
        } = self;
        number
    }
}
