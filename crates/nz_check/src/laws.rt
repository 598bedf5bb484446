//! Laws of checked texts, each the contract of a function with nothing to do.

ghost use Rattle.std.specs.Prelude.{◌≡◌, ◌≤◌, ◌↔◌, ℕ, List, length, Ok};
ghost use Rattle.nz_machine.specs.declared.event.Record.{Record};
ghost use Rattle.nz_machine.specs.rules.State.{Group};
ghost use Rattle.nz_machine.specs.runs.World.{World};
ghost use Rattle.nz_machine.specs.runs.Events.{events};
ghost use Rattle.nz_machine.specs.runs.History.{history};
ghost use Rattle.nz_machine.specs.runs.OneHistory.{Lin};
ghost use Rattle.nz_text.specs.declared.printed.Printed.{Printed};
ghost use Rattle.nz_text.specs.Reading.{printed_in};
ghost use Rattle.nz_text.specs.Text.{printed_of_run, text};
ghost use Rattle.nz_check.specs.Checked.{verdict_of, checked};
ghost use Rattle.nz_check.specs.Exact.{IsChecked, IsCheckedText};
ghost use Rattle.nz_check.specs.declared.limit.TheConstants.{MAX_PRINTED};
ghost use Rattle.nz_check.specs.declared.verdict.Verdict.TheVariants.{Yes};

/// The verdict is Yes exactly where the events are in form, the open lines are the requests without acceptance, the
/// answers are those of the one store that executes the history, and events and history are one history. So it is of
/// a text that is of the grammar, and no longer text has it.
pub fn exact()
    ensures printed { (p : Printed) → (verdict_of p ≡ Yes) ↔ IsChecked p }
    ensures text { (bytes : List ℕ) → (checked bytes ≡ Yes) ↔ IsCheckedText bytes }
{}

/// The text of each run with one history is checked, where it is within the limit.
pub fn accepts()
    ensures { (g : Group) (J : List Record) → World g J → Lin (events g J) (history g J) → length (text g J) ≤ MAX_PRINTED → checked (text g J) ≡ Yes }
{}

/// Reading the text of a run gives back its events, its open requests and its history.
pub fn texts_of_runs_are_read_back()
    ensures { (g : Group) (J : List Record) → World g J → printed_in (text g J) ≡ Ok (printed_of_run g J) }
{}
