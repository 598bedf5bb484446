//! The kind of the message in a frame.

ghost use Rattle.std.specs.Prelude.{◌≡◌};
ghost use Rattle.nz_machine.specs.runs.Schedule.{kind_in_frame};

use nz_frame::Frame;

/// The kind of the message in a frame. What is no frame has none.
#[tactic(auto, unfolding(nz_frame::specs::Grammar::frame))]
pub fn kind_of(frame: &Frame) -> Option<u8>
    ensures { result ≡ kind_in_frame frame.now }
{
    match frame.parts() {
        Ok(view) => Some(view.kind),
        Err(_) => None,
    }
}
