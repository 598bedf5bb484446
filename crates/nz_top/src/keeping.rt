//! What a caller gets of a run that was played.

ghost use Rattle.std.specs.Prelude.{◌≡◌, IfSome};
ghost use Rattle.nz_top.specs.Called.{journal_of};

use nz_base::Scenario;
use nz_machine::{Forgotten, Journal};
use std::mem;

/// What is kept of a run: its journal as data, or nothing in memory. Contracts see the journal in both.
pub trait Keeping: Drop {
    ghost use Rattle.nz_machine.specs.declared.journal.Journal.{Journal};

    /// The journal of the run.
    ghost journal: { Self → Journal };

    /// Whether the records are to be in memory. Either answer is right: it decides how the run is played.
    fn wants_records() -> bool;

    /// From a journal in memory.
    fn of(whole: Journal) -> Self
        ensures { Self.journal result ≡ whole };

    /// From a run whose records went. None where they are to be in memory.
    fn of_unkept(unkept: Unkept) -> Option<Self>
        ensures { IfSome result (λ kept. Self.journal kept ≡ journal_of unkept) };
}

impl Keeping for Journal {
    ghost journal = { λ j. j };

    fn wants_records() -> bool {
        true
    }

    fn of(whole: Journal) -> Journal {
        whole
    }

    fn of_unkept(_unkept: Unkept) -> Option<Journal> {
        None
    }
}

/// A journal whose records are not in memory: the proofs alone know them. If they were, their memory is given back when the
/// process ends, and not before.
#[derive(Drop)]
pub struct Unkept {
    pub scenario: Scenario,
    pub records: Forgotten,
}

impl Keeping for Unkept {
    ghost journal = { journal_of };

    fn wants_records() -> bool {
        false
    }

    fn of(whole: Journal) -> Unkept {
        let Journal { scenario, records } = whole;
        let unkept = Unkept {
            scenario,
            records: Forgotten::of(&records),
        };
        // They are most of the memory, which goes back sooner as a whole, with the process.
        mem::forget(records);
        unkept
    }

    fn of_unkept(unkept: Unkept) -> Option<Unkept> {
        Some(unkept)
    }
}
