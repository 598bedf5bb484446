//! Why a text is no scenario.

/// What is wrong with a line. The first of the four that is, in this order, is its kind.
#[derive(Clone, Copy, Debug, PartialEq, Eq)]
pub enum Kind {
    /// It has not the shape of any line.
    Syntax,
    /// It is not in its place.
    Order,
    /// It names somebody or something that is not there.
    Name,
    /// A number or a length is out of its range, or too much was asked.
    Limit,
}

/// Why a text is no scenario.
#[derive(Clone, Copy, Debug, PartialEq, Eq)]
pub enum ScriptFault {
    /// The first bad line, counted from 1.
    Refusal { line: u32, kind: Kind },
    NoMemory,
}
