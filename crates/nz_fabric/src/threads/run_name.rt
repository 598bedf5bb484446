//! The name of a run, as a type.

use std::marker::Brand;
use std::sync::ledger::Ledger;

/// A type that names one run, so that values under locks are known to belong to it. The call that begins a run picks
/// it.
pub trait RunName: Ledger {
    ghost use Rattle.nz_base.specs.declared.scenario.Scenario.{Scenario};
    ghost use Rattle.nz_fabric.specs.threads.Chronicles.{Chronicles};

    /// What is run.
    ghost scenario: { Scenario };

    /// Which chronicles are those of the run.
    ghost chronicles: { Chronicles };
}

impl RunName for Brand {
    ghost use Rattle.nz_fabric.specs.threads.Chronicles.{no_chronicles};
    ghost use Rattle.nz_fabric.specs.threads.Shared.{no_scenario};

    ghost scenario = { no_scenario };

    ghost chronicles = { no_chronicles };
}
