//! What is kept of each sender, receiver and kind: a count of parcels, and the fault lines that may strike them.

ghost use Rattle.std.specs.Prelude.{◌≡◌, ◌<◌, ◌∷◌, ◌++◌, [], ℕ, filter, IfOk, OnOk};
ghost use Rattle.nz_fabric.specs.schedule.Calendars as calendars;
ghost use Rattle.nz_fabric.specs.schedule.Numbered.{items_under};
ghost use Rattle.nz_fabric.specs.schedule.Calendars.{course, is_block, names, number_in_all, HasLines};

use crate::schedule::faults::may_strike;
use crate::schedule::numbered::Numbered;
use nz_base::{Actor, Fault, FaultList, NoMemory};
use nz_machine::Parcel;
use std::alloc::Global;

/// A sender and a receiver, each by a number of its own, and a kind of message.
#[derive(Clone, Copy, Debug, PartialEq, Eq, Hash)]
pub struct Course {
    pub from: u32,
    pub to: u32,
    pub kind: u8,
}

/// What is kept of a course: how many of its parcels were sent, and the fault lines that may strike them, each list in the
/// order of the scenario.
#[derive(Drop)]
pub struct Traffic {
    pub count: u64,
    /// The lines that name no parcel.
    pub blocks: FaultList,
    /// The lines that name a parcel, under its number.
    pub named: Numbered<Fault>,
}

/// A number that only this actor has.
pub fn number_in_all(actor: Actor) -> u32
    ensures number { result ≡ number_in_all actor }
    ensures within { result < 768 }
{
    match actor {
        Actor::Replica(number) => 3 * u32::from(number),
        Actor::Proxy(number) => 3 * u32::from(number) + 1,
        Actor::Client(number) => 3 * u32::from(number) + 2,
    }
}

/// The course of a parcel whose frame has this kind.
pub fn course_of(parcel: &Parcel, kind: u8) -> Course
    ensures { result ≡ course parcel.now.from parcel.now.to kind }
{
    Course {
        from: number_in_all(parcel.from),
        to: number_in_all(parcel.to),
        kind,
    }
}

/// A fault line is kept, if it may strike a parcel of a kind.
fn keep_line(
    alloc: Global,
    traffic: &mut Traffic,
    parcel: &Parcel,
    kind: u8,
    fault: Fault,
) -> Result<(), NoMemory>
    ensures count { traffic.new.count ≡ traffic.old.count }
    ensures blocks { let line = filter (calendars.may_strike parcel.now.from parcel.now.to kind) (fault ∷ []) in
        OnOk result (traffic.new.blocks ≡ traffic.old.blocks ++ filter is_block line) }
    ensures named { let line = filter (calendars.may_strike parcel.now.from parcel.now.to kind) (fault ∷ []) in
        OnOk result ((n : ℕ) → items_under traffic.new.named n ≡ items_under traffic.old.named n ++ filter (names n) line) }
{
    if !may_strike(fault, parcel, kind) {
        return Ok(());
    }
    match fault {
        Fault::Drop { count, .. }
        | Fault::Hold { count, .. }
        | Fault::Twice { count, .. }
        | Fault::Cut { count, .. } => { traffic.named.push(alloc, u64::from(count), fault) }
        Fault::Block { .. } => traffic.blocks.push(fault),
        Fault::Crash { .. } | Fault::Restart { .. } | Fault::Alarm { .. } => Ok(()),
    }
}

/// What is kept of a course with its first parcel.
pub fn first_traffic(
    alloc: Global,
    faults: &[Fault],
    parcel: &Parcel,
    kind: u8,
) -> Result<Traffic, NoMemory>
    ensures count { IfOk result (λ traffic. traffic.count ≡ 1) }
    ensures lines { IfOk result (HasLines (filter (calendars.may_strike parcel.now.from parcel.now.to kind) faults.now)) }
{
    let mut traffic = Traffic {
        count: 1,
        blocks: FaultList::new(alloc),
        named: Numbered::new(alloc),
    };
    for fault in faults {
        keep_line(alloc, &mut traffic, parcel, kind, *fault)?;
    }
    Ok(traffic)
}
