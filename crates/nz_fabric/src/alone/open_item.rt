//! A due item that was taken, of a run on one thread.

ghost use Rattle.std.specs.Prelude.{◌≡◌};

use nz_base::Actor;
use nz_machine::Event;

/// A due item that was taken. It must be recorded or given up.
pub struct OpenItem {
    /// The items of a run are numbered from 1 on, as they are taken.
    pub number: u64,
    pub tick: u32,
    pub actor: Actor,
    pub event: Event,
}

impl OpenItem {
    /// The number, when the item is spent.
    pub(crate) fn into_number(self) -> u64
        ensures { result ≡ self.number }
    {
        let OpenItem {
            number,
            tick: _,
            actor: _,
            event: _,
        } = self;
        number
    }
}
