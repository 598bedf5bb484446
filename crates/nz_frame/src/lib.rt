//! Frames: what goes over the network between two actors. A frame is a length of 32 bits, a version, a
//! kind, the sender's and the receiver's address, and a body. This crate knows nothing of bodies.
#![tactic(auto)]

mod address;
mod comparing;
mod frame;
mod laws;
mod reading;
mod refusal;

pub use address::{KIND_COUNT, is_address, is_kind};
pub use frame::Frame;
pub use laws::{
    cut_is_short, frames_pass, more_is_trailing, no_prefix, one_reading, only_frames_pass,
    short_place,
};
pub use reading::{FrameView, frame_len};
pub use refusal::FrameRefusal;
