//! A step of a replay.

ghost use Rattle.std.specs.Prelude.{◌≡◌, ◌∷◌, true, List, OnOk};
ghost use Rattle.nz_machine.specs.rules.State.{Group};
ghost use Rattle.nz_machine.specs.declared.event.Record.{Record as RecordModel};
ghost use Rattle.nz_replica.specs.Models.{IsCore};

use nz_base::{Actor, NoMemory};
use nz_machine::{Core, Record};
use nz_replica::Replica;

/// The replica takes the record, if it is its own.
pub fn replay_one(core: &mut Replica, number: u8, next: &Record) -> Result<(), NoMemory>
    requires { core.old.live ≡ true }
    ensures live { OnOk result (core.new.live ≡ true) }
    ensures core { OnOk result ((g : Group) (J : List RecordModel) → IsCore g J number core.old → IsCore g (next.now ∷ J) number core.new) }
{
    if next.actor.is(&Actor::Replica(number)) {
        core.step(&next.event)?;
    }
    Ok(())
}
