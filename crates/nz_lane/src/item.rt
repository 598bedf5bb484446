//! Items, and why bytes are none.

use nz_base::Blob;
use nz_frame::{Frame, FrameRefusal};

/// The first byte of a frame is that of its length, which is at most 16,777,216: 0 or this.
pub const FRAME_BYTE: u8 = 1;

/// The first byte of a clock reading.
pub const CLOCK_BYTE: u8 = 2;

/// The one byte of an alarm.
pub const ALARM_BYTE: u8 = 3;

/// The one byte of a crash.
pub const CRASH_BYTE: u8 = 4;

/// The first byte of a restart.
pub const RESTART_BYTE: u8 = 5;

/// The first byte of a request.
pub const REQUEST_BYTE: u8 = 6;

/// What happens to a node.
#[derive(Debug, Drop)]
pub enum Item {
    /// The frame comes whole.
    Frame(Frame),
    /// The node's clock reads this many clock units, at most `MAX_CLOCK`.
    Clock(u64),
    /// The node learns that the leader is lost.
    Alarm,
    /// The node forgets all, and is down.
    Crash,
    /// A node that is down comes back, under a number that it has not had.
    Restart(u64),
    /// The client of the node gets one request more. The bytes are a command.
    Request(Blob),
}

/// The sorts of items.
#[derive(Clone, Copy, Debug, PartialEq, Eq)]
pub enum Sort {
    Frame,
    Clock,
    Alarm,
    Crash,
    Restart,
    Request,
}

/// Why bytes begin no item.
#[derive(Clone, Copy, Debug, PartialEq, Eq)]
pub enum ItemRefusal {
    /// No item has this first byte.
    Kind,
    /// The frame is refused. The place is counted from the frame's first byte.
    Frame(FrameRefusal),
    /// The clock reads more than `MAX_CLOCK`.
    Clock,
    /// The request's length is above `MAX_COMMAND`, or its bytes are no command.
    Command,
    /// The bytes end before the item does.
    Cut,
}
