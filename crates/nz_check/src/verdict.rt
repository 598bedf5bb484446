//! What is answered of a text.

ghost use Rattle.std.specs.Prelude.{◌≡◌};
ghost use Rattle.nz_check.specs.Verdicts as verdicts;

/// Why a line is refused. Of several reasons at one line the first in this order is given, but `Limit` and `Form`
/// come before all others.
#[derive(Clone, Copy, Debug, PartialEq, Eq)]
pub enum Why {
    /// The line is not of the grammar, or may not come here.
    Form,
    /// An earlier line of the same kind has the id.
    Repeat,
    /// The request was not sent before its acceptance, or not with the command of the history.
    Unsent,
    /// The history has no entry of the request that was accepted.
    Missing,
    /// The open lines are not the requests without acceptance, in the order in which they were sent.
    Open,
    /// Something was accepted before this request was sent, and is not in the history before it.
    Order,
    /// The answer is not that of the one store which executes the history.
    Answer,
    /// The text is too long.
    Limit,
}

/// Whether a text is that of a run with one history.
#[derive(Clone, Copy, Debug, PartialEq, Eq)]
pub enum Verdict {
    Yes,
    /// The first line that is wrong, counted from 1.
    No { line: u32, why: Why },
}

impl Verdict {
    pub fn is_yes(&self) -> bool
        ensures { result ≡ verdicts.is_yes self.now }
    {
        matches!(self, Verdict::Yes)
    }
}
