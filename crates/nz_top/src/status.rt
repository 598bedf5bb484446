//! How a call ends.
ghost use Rattle.std.specs.Prelude.{◌≡◌, None};

use crate::keeping::Keeping;
use nz_machine::Journal;
use std::marker::Model;

/// How a call ended.
#[derive(Clone, Copy, Debug, PartialEq, Eq)]
pub enum Status {
    /// All was done.
    Done,
    /// The words are no call.
    Usage,
    /// The input is no scenario.
    BadScenario,
    /// The source counted a fault.
    ReadFault,
    /// The sink counted a fault.
    WriteFault,
    /// Memory was not found.
    NoMemory,
    /// The text of the input is wrong.
    Rejected,
}

impl Status {
    ghost use Rattle.nz_top.specs.Calls.{code_of};

    /// The code that the program ends with.
    pub fn code(&self) -> u8
        ensures { result ≡ code_of self.now }
    {
        match self {
            Status::Done => 0,
            Status::Usage => 1,
            Status::BadScenario => 2,
            Status::ReadFault => 3,
            Status::WriteFault => 4,
            Status::NoMemory => 6,
            Status::Rejected => 7,
        }
    }
}

/// How a call ended, and what is kept of the run that was played. Contracts see the status and the journal.
#[derive(Drop)]
pub struct Outcome<K: Keeping = Journal> {
    pub status: Status,
    pub journal: Option<K>,
}

impl<K: Keeping> Model for Outcome<K> {
    ghost use Rattle.std.specs.Option.{option_map};
    ghost use Rattle.nz_top.specs.Called.{Called};

    ghost Value = { Called };

    ghost view = { λ o. record { status = o.status; journal = option_map K.journal o.journal } };
}

impl<K: Keeping> Outcome<K> {
    /// An outcome without a run.
    pub fn without_run(status: Status) -> Outcome<K>
        ensures { result ≡ record { status = status; journal = None } }
    {
        Outcome {
            status,
            journal: None,
        }
    }
}
