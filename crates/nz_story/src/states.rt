//! What is shown of a replica's state beside its lists, written after what is there.

ghost use Rattle.std.specs.Prelude.{◌≡◌, ◌++◌, OnOk};
ghost use Rattle.std.specs.Fmt.{decimal};
ghost use Rattle.nz_story.specs.States.{phase_text, points_text, state_text};

use super::words::{put_number_field, put_vector, put_view};
use nz_base::NoMemory;
use nz_machine::{Phase, ReplicaState, Status};
use nz_script::{put, put_number};

fn put_count(out: &mut Vec<u8>, text: &[u8], count: u32) -> Result<(), NoMemory>
    ensures { OnOk result (out.new.items ≡ out.old.items ++ (text.now ++ decimal count)) }
{
    put(out, text)?;
    put_number(out, u64::from(count))
}

fn put_phase(out: &mut Vec<u8>, state: &ReplicaState) -> Result<(), NoMemory>
    ensures { OnOk result (out.new.items ≡ out.old.items ++ phase_text state.now.state.rejoin.phase state.now.state.rejoin) }
{
    match state.phase() {
        Phase::Vectors => put_count(out, b"vectors collected ", state.tellers()),
        Phase::Views => put_count(out, b"views collected ", state.tells()),
        Phase::Log => put(out, b"log"),
    }
}

fn put_points(out: &mut Vec<u8>, state: &ReplicaState) -> Result<(), NoMemory>
    ensures { OnOk result (out.new.items ≡ out.old.items ++ points_text state.now.state) }
{
    put_view(out, state.view())?;
    put_vector(out, state.vector())?;
    put_number_field(out, b"synced", u64::from(state.log().synced()))?;
    put_number_field(out, b"commit", u64::from(state.commit()))
}

/// Writes what is shown of the state, but for its lists.
pub fn put_state(out: &mut Vec<u8>, state: &ReplicaState) -> Result<(), NoMemory>
    ensures { OnOk result (out.new.items ≡ out.old.items ++ state_text state.now.state) }
{
    match state.status() {
        Status::Normal => {
            put(out, b"normal")?;
            put_points(out, state)
        }
        Status::ViewChange => {
            put(out, b"view-change collected ")?;
            put_number(out, state.report_count() as u64)?;
            put_points(out, state)
        }
        Status::Rejoining => {
            put(out, b"rejoining ")?;
            put_phase(out, state)?;
            put_points(out, state)
        }
        Status::Down => put(out, b"down"),
    }
}
