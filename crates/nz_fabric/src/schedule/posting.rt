//! How what was sent in a tick is put into the calendar.

ghost use Rattle.std.specs.Prelude.{◌≡◌, ◌<◌, ◌≤◌, ◌++◌, ℕ, List, Some, length, drop, map, slice_get, OnOk, OnErr};
ghost use Rattle.nz_machine.specs.declared.event.Record.{Record};
ghost use Rattle.nz_machine.specs.runs.Schedule.{IsPlayable, Posted, posted_in};
ghost use Rattle.nz_fabric.specs.schedule.Calendars.{Represents, HasPosted, posted_by};

use crate::schedule::calendar::Calendar;
use nz_base::{NoMemory, Scenario};
use nz_machine::{Recording, SharedParcel};

/// Parcels were sent in a tick, in this order. Where memory runs out some of the first are posted.
fn post_sends(
    calendar: &mut Calendar,
    scenario: &Scenario,
    tick: u32,
    sends: &[SharedParcel],
) -> Result<(), NoMemory>
    requires { IsPlayable scenario.now }
    ensures ok { (L : List Posted) (now : ℕ) → Represents scenario.now L now calendar.old
        → OnOk result (Represents scenario.now (L ++ map (posted_in tick) sends.now) now calendar.new) }
    ensures err { (L : List Posted) (now : ℕ) → Represents scenario.now L now calendar.old
        → OnErr result (HasPosted scenario.now L (map (posted_in tick) sends.now) now calendar.new) }
{
    for parcel in sends {
        if calendar.parcels() == u64::MAX {
            return Err(NoMemory);
        }
        calendar.post(scenario, tick, parcel)?;
    }
    Ok(())
}

/// What the record at this place sent is sent.
fn post_record(
    calendar: &mut Calendar,
    scenario: &Scenario,
    records: &Recording,
    place: usize,
) -> Result<(), NoMemory>
    requires playable { IsPlayable scenario.now }
    requires place { place < length records.now.records }
    ensures ok { (L : List Posted) (now : ℕ) (step : Record) → slice_get records.now.records place ≡ Some step → Represents scenario.now L now calendar.old
        → OnOk result (Represents scenario.now (L ++ map (posted_in step.tick) step.sends) now calendar.new) }
    ensures err { (L : List Posted) (now : ℕ) (step : Record) → slice_get records.now.records place ≡ Some step → Represents scenario.now L now calendar.old
        → OnErr result (HasPosted scenario.now L (map (posted_in step.tick) step.sends) now calendar.new) }
{
    match records.get_whole(place) {
        Some(step) => post_sends(calendar, scenario, step.tick, step.sends.as_slice()),
        None => Ok(()),
    }
}

/// What the records from this place on sent is sent, in their order.
pub fn post_all(
    calendar: &mut Calendar,
    scenario: &Scenario,
    records: &Recording,
    from: usize,
) -> Result<(), NoMemory>
    requires playable { IsPlayable scenario.now }
    requires from { from ≤ length records.now.records }
    ensures ok { (L : List Posted) (now : ℕ) → Represents scenario.now L now calendar.old
        → OnOk result (Represents scenario.now (L ++ posted_by (drop from records.now.records)) now calendar.new) }
    ensures err { (L : List Posted) (now : ℕ) → Represents scenario.now L now calendar.old
        → OnErr result (HasPosted scenario.now L (posted_by (drop from records.now.records)) now calendar.new) }
{
    for place in from..records.len() {
        post_record(calendar, scenario, records, place)?;
    }
    Ok(())
}
