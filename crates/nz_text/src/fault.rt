//! Why a text is none of a run.

/// Why a text was not read.
#[derive(Clone, Copy, Debug, PartialEq, Eq)]
pub enum TextFault {
    /// The first line that is not of the grammar, from 1.
    Bad { line: u32 },
    NoMemory,
}
