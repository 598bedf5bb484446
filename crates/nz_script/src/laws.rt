//! What holds of the definitions. Each law is the contract of a function that does nothing.
ghost use Rattle.std.specs.Prelude.{◌≡◌, ◌≤◌, ℕ, List, length, Ok};
ghost use Rattle.nz_base.specs.declared.scenario.Scenario.{Scenario};
ghost use Rattle.nz_base.specs.declared.limits.TheConstants.{MAX_REQUESTS, MAX_TEXT};
ghost use Rattle.nz_script.specs.Draws.{scenario_of_seed};
ghost use Rattle.nz_script.specs.Reading.{scenario};
ghost use Rattle.nz_script.specs.Texts.{text_of};
ghost use Rattle.nz_script.specs.Valid.{IsValid, IsRunnable};

/// The text of a valid scenario is read as that scenario.
pub fn texts_are_read_back()
    ensures { (s : Scenario) → IsValid s → scenario (text_of s) ≡ Ok s }
{}

/// What is read can be run, and is not too long.
pub fn what_is_read_can_be_run()
    ensures run { (bytes : List ℕ) (s : Scenario) → scenario bytes ≡ Ok s → IsRunnable s }
    ensures short { (bytes : List ℕ) (s : Scenario) → scenario bytes ≡ Ok s → length bytes ≤ MAX_TEXT }
{}

/// What a seed draws can be run.
pub fn what_is_drawn_can_be_run()
    ensures { (seed count : ℕ) → count ≤ MAX_REQUESTS → IsRunnable (scenario_of_seed seed count) }
{}

/// The text of what a seed draws is read as what was drawn.
pub fn what_is_drawn_can_be_read()
    ensures valid { (seed count : ℕ) → count ≤ MAX_REQUESTS → IsValid (scenario_of_seed seed count) }
    ensures read_back { (seed count : ℕ) → count ≤ MAX_REQUESTS → scenario (text_of (scenario_of_seed seed count)) ≡ Ok (scenario_of_seed seed count) }
{}
