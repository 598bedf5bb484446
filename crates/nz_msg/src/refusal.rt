//! Why bytes are no message.

use nz_frame::FrameRefusal;

/// Why bytes were not decoded. A place is counted in bytes from the first one.
#[derive(Clone, Copy, Debug, PartialEq, Eq)]
pub enum DecodeRefusal {
    /// The bytes are no frame.
    Frame(FrameRefusal),
    /// The frame's body is no message of the frame's kind. The place is that of the first field that runs past the
    /// end or is out of its range, else that of the first byte after the body's last field. A field is one number,
    /// one digest, or one run of bytes with its length before it.
    BadBody { place: u32 },
    NoMemory,
}
