//! Records that take no memory.
ghost use Rattle.std.specs.Prelude.{◌≡◌, ◌++◌, ◌∷◌, []};

use super::event::Record;
use super::records::RecordList;
use std::marker::Model;
use std::mem::{forget, replace, size_of};
use std::snapshot::Snapshot;

/// The records of a run, the oldest first, in no memory: it has no bytes, and nothing can be read from it when the program
/// runs. Contracts see the list of them, which is what the code gave to `of` and `push`.
#[cycle(forgotten)]
pub struct Forgotten {
    last: Snapshot<Link>,
}

const _: () = prove!(size_of::<Forgotten>() == 0);

/// No record, all of them at once, or the last one and those before it.
#[cycle(forgotten)]
#[derive(Drop)]
enum Link {
    Nothing,
    All(Snapshot<RecordList>),
    More {
        earlier: Forgotten,
        step: Snapshot<Record>,
    },
}

impl Model for Forgotten {
    ghost use Rattle.std.specs.Prelude.{List, length};
    ghost use Rattle.nz_machine.specs.declared.event.Record.{Record as RecordModel};

    ghost Value = { List RecordModel };

    ghost use Rattle.nz_machine.specs.journals.Links.{listed};

    ghost view = { λ f. listed f.last.value };

    ghost size = { length };

    ghost use Rattle.std.proofs.Common.{arith};
    ghost use Rattle.nz_machine.specs.journals.LinksFall.{listed-falls};

    ghost size_decreases = { λ f h. omega (arith, listed-falls f.last.value) };
}

impl Drop for Forgotten {
    #[cycle(forgotten)]
    fn drop(self) {
        let Forgotten { last } = self;
        forget(last);
    }
}

impl Forgotten {
    /// No record.
    pub fn new() -> Forgotten
        ensures { result ≡ [] }
    {
        let nothing = Link::Nothing;
        Forgotten {
            last: Snapshot::of(&nothing),
        }
    }

    /// These records. Their memory may be freed afterwards.
    pub fn of(records: &RecordList) -> Forgotten
        ensures { result ≡ records.now }
    {
        let all = Link::All(Snapshot::of(records));
        Forgotten {
            last: Snapshot::of(&all),
        }
    }

    /// Puts the record last. Nothing of it stays in memory.
    pub fn push(&mut self, step: &Record)
        ensures { self.new ≡ self.old ++ step.now ∷ [] }
    {
        let earlier = replace(self, Forgotten::new());
        let link = Link::More {
            earlier,
            step: Snapshot::of(step),
        };
        *self = Forgotten {
            last: Snapshot::of(&link),
        };
    }
}
