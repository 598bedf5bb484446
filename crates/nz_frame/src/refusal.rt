//! Why bytes are no frame.

/// Why bytes are no frame. A place is counted in bytes from the first one.
#[derive(Clone, Copy, Debug, PartialEq, Eq)]
pub enum FrameRefusal {
    /// The bytes end before the frame does, or the length leaves no room for the header. The place is the number of
    /// bytes given, or 2^32 - 1 where more are given after such a length.
    Short { place: u32 },
    /// The length is above 16,777,216.
    TooLong { place: u32 },
    /// More bytes than the frame has. The place is the frame's end.
    Trailing { place: u32 },
    /// The version is not 1.
    BadVersion { place: u32 },
    /// The kind is not 1 to `KIND_COUNT`.
    BadKind { place: u32 },
    /// The address of the sender, at place 6, or of the receiver, at place 8, belongs to nobody.
    BadActor { place: u32 },
}
