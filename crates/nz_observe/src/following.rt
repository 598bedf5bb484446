//! A replica that is replayed up to the ends of ticks.

ghost use Rattle.std.specs.Prelude.{◌≡◌, ◌≤◌, ◌<◌, ◌+◌, length, slice_get, Some, IfOk, OnOk};
ghost use Rattle.nz_machine.specs.journals.Journals.{group_in, run_in};
ghost use Rattle.nz_machine.specs.runs.Schedule.{Scheduled};
ghost use Rattle.nz_machine.specs.declared.event.Record.{Record as RecordModel};
ghost use Rattle.nz_replay.specs.Runs.{run_up_to};
ghost use Rattle.nz_replica.specs.Models.{IsCore};
ghost use Rattle.nz_observe.specs.Following.{AreUpTo, IsEndOf};

use nz_base::{Actor, NoMemory};
use nz_machine::Journal;
use nz_replay::replay_one;
use nz_replica::Replica;

/// The replica takes the record at the place, if it is its own.
fn follow_one(
    journal: &Journal,
    replica: &mut Replica,
    number: u8,
    place: u32,
    actor: Actor,
) -> Result<(), NoMemory>
    requires within { place < length journal.now.records }
    requires actor { (step : RecordModel) → slice_get journal.now.records place ≡ Some step → step.actor ≡ actor }
    requires core { IsCore (group_in journal.now) (run_up_to journal.now place) number replica.old }
    ensures { OnOk result (IsCore (group_in journal.now) (run_up_to journal.now (place + 1)) number replica.new) }
{
    if !actor.is(&Actor::Replica(number)) {
        return Ok(());
    }
    let next = journal.records.get(place);
    let step = next.as_record();
    replay_one(replica, number, step)?;
    Ok(())
}

/// The replica takes the records up to the end of the tick. So many of the journal's it had, and so many it has then.
/// Of a record of another actor only the moment is read.
pub fn follow_to(
    journal: &Journal,
    replica: &mut Replica,
    number: u8,
    from: u32,
    tick: u32,
) -> Result<u32, NoMemory>
    requires scheduled { Scheduled journal.now.scenario (run_in journal.now) }
    requires earlier { AreUpTo tick (run_up_to journal.now from) }
    requires within { from ≤ length journal.now.records }
    requires core { IsCore (group_in journal.now) (run_up_to journal.now from) number replica.old }
    ensures end { IfOk result (IsEndOf journal.now tick) }
    ensures core { IfOk result (λ to. IsCore (group_in journal.now) (run_up_to journal.now to) number replica.new) }
{
    for place in from..journal.records.len() {
        let (when, actor) = journal.records.moment(place);
        if when > tick {
            return Ok(place);
        }
        follow_one(journal, replica, number, place, actor)?;
    }
    Ok(journal.records.len())
}
