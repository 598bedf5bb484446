//! The kinds of messages whose parcels fault lines may strike.

ghost use Rattle.std.specs.Prelude.{◌≡◌, ◌<◌, ◌||◌, ℕ, false, get_or};
ghost use Rattle.nz_fabric.specs.schedule.Calendars.{is_watched, may_strike_kind, AreMarked};

use nz_base::{Fault, FaultList};
use std::marker::Model;
use std::snapshot::Snapshot;

/// How many kinds a frame can name.
const ALL: usize = 256;

/// The kinds of which some fault line may strike a parcel. Contracts see the lines.
#[derive(Drop)]
pub struct Kinds {
    /// Whether each kind is one of them.
    marks: [bool; ALL],
    /// The lines, which the proofs alone know.
    lines: Snapshot<FaultList>,
}

impl Model for Kinds {
    ghost use Rattle.std.specs.Prelude.{List};
    ghost use Rattle.nz_base.specs.declared.scenario.Fault.{Fault as Line};
    ghost use Rattle.nz_fabric.specs.schedule.Calendars.{AreMarked};

    ghost Value = { List Line };

    ghost view = { λ k. k.lines.value };

    ghost invariant = { λ k. AreMarked k.lines.value k.marks };
}

/// The kinds that a fault line may strike are marked too.
fn mark(fault: Fault, marks: &mut [bool; ALL])
    ensures { (kind : ℕ) → kind < 256 → get_or marks.new kind false ≡ (get_or marks.old kind false || may_strike_kind kind fault) }
{
    match fault {
        Fault::Drop { kind, .. }
        | Fault::Hold { kind, .. }
        | Fault::Twice { kind, .. }
        | Fault::Cut { kind, .. } => marks[usize::from(kind)] = true,
        Fault::Block { .. } => *marks = [true; ALL],
        Fault::Crash { .. } | Fault::Restart { .. } | Fault::Alarm { .. } => {}
    }
}

/// A mark for each kind that some fault line may strike.
fn marks_of(faults: &[Fault]) -> [bool; ALL]
    ensures { AreMarked faults.now result }
{
    let mut marks = [false; ALL];
    for fault in faults {
        mark(*fault, &mut marks);
    }
    marks
}

impl Kinds {
    /// The kinds that these lines may strike.
    pub fn new(faults: &FaultList) -> Kinds
        ensures { result ≡ faults.now }
    {
        Kinds {
            marks: marks_of(faults.as_slice()),
            lines: Snapshot::of(faults),
        }
    }

    /// Whether some line may strike a parcel of this kind.
    pub fn contains(&self, kind: u8) -> bool
        ensures { result ≡ is_watched self.now kind }
    {
        self.marks[usize::from(kind)]
    }
}
