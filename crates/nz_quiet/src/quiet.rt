//! Which scenarios are quiet.

ghost use Rattle.std.specs.Prelude.{◌↔◌, IsTrue};
ghost use Rattle.nz_quiet.specs.Quiet.{IsQuiet};

use nz_base::Scenario;

/// Whether the scenario has no fault line, and each of its skews is 0.
pub fn is_quiet(scenario: &Scenario) -> bool
    ensures { IsTrue result ↔ IsQuiet scenario.now }
{
    scenario.faults.is_empty() && scenario.skews.as_slice().iter().all(|skew| skew.units == 0)
}
