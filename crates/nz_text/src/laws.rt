//! Laws of texts, each the contract of a function with nothing to do.
ghost use Rattle.std.specs.Prelude.{◌≡◌, Ok};
ghost use Rattle.nz_text.specs.Fit.{FitsPrinted};
ghost use Rattle.nz_text.specs.Reading.{printed_in};
ghost use Rattle.nz_text.specs.Text.{text_of_printed};
ghost use Rattle.nz_text.specs.declared.printed.Printed.{Printed};

/// Reading the text of what can be printed gives it back.
pub fn texts_are_read_back()
    ensures { (p : Printed) → FitsPrinted p → printed_in (text_of_printed p) ≡ Ok p }
{}
