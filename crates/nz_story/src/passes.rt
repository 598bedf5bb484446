//! A parcel passes the fault lines of a scenario in their order.

ghost use Rattle.std.specs.Prelude.{◌≡◌, ◌∷◌, ◌++◌, [], ◌+◌, ◌&&◌, ◌==◌, List, length, OnOk, if◌then◌else◌};
ghost use Rattle.nz_machine.specs.declared.event.Parcel.{Parcel as ParcelModel};
ghost use Rattle.nz_machine.specs.runs.Schedule as schedule;
ghost use Rattle.nz_machine.specs.runs.Schedule.{kind_in_frame, after_fault, after_faults};
ghost use Rattle.nz_story.specs.Passes as specs;
ghost use Rattle.nz_story.specs.Passes.{deliveries_in, number_in, count_of, counts_of};

use super::deliveries::{Delivery, strike};
use nz_base::{Actor, Fault, NoMemory};
use nz_machine::Parcel;

/// Whether the fault line names a parcel whose frame has this kind.
fn names(fault: Fault, parcel: &Parcel, own: Option<u8>) -> bool
    requires { own ≡ kind_in_frame parcel.now.frame }
    ensures { result ≡ specs.names fault parcel.now }
{
    match fault {
        Fault::Drop { from, to, kind, .. }
        | Fault::Hold { from, to, kind, .. }
        | Fault::Twice { from, to, kind, .. }
        | Fault::Cut { from, to, kind, .. } => {
            own == Some(kind) && parcel.from.is(&from) && parcel.to.is(&to)
        }
        Fault::Block { .. } | Fault::Crash { .. } | Fault::Restart { .. } | Fault::Alarm { .. } => {
            false
        }
    }
}

/// Which of the parcels that it names the fault line strikes; 0 where it names none.
fn number_in(fault: Fault) -> u32
    ensures { result ≡ number_in fault }
{
    match fault {
        Fault::Drop { count, .. }
        | Fault::Hold { count, .. }
        | Fault::Twice { count, .. }
        | Fault::Cut { count, .. } => count,
        Fault::Block { .. } | Fault::Crash { .. } | Fault::Restart { .. } | Fault::Alarm { .. } =>
            0,
    }
}

/// Whether an end of a block names the actor.
fn is_named(end: Option<Actor>, actor: Actor) -> bool
    ensures { result ≡ schedule.is_named end actor }
{
    match end {
        None => true,
        Some(named) => named.is(&actor),
    }
}

/// Whether the fault line blocks a parcel that is sent in a tick.
fn blocks(fault: Fault, tick: u32, parcel: &Parcel) -> bool
    ensures { result ≡ specs.blocks tick parcel.now fault }
{
    match fault {
        Fault::Block {
            from,
            to,
            first,
            last,
        } => {
            is_named(from, parcel.from) && is_named(to, parcel.to) && first <= tick && tick <= last
        }
        _ => false,
    }
}

/// Whether the fault line strikes a parcel that is sent in a tick, of which it is known whether the line names it, after
/// this many that the line names.
fn strikes(fault: Fault, tick: u32, parcel: &Parcel, named: bool, count: u64) -> bool
    requires { named ≡ specs.names fault parcel.now }
    ensures { result ≡ specs.strikes tick parcel.now fault count }
{
    (named && count.checked_add(1) == Some(u64::from(number_in(fault))))
        || blocks(fault, tick, parcel)
}

/// One more parcel is counted, where the line names it.
fn count_one(named: bool, count: &mut u64) -> Result<(), NoMemory>
    ensures { OnOk result (count.new ≡ (if named then count.old + 1 else count.old)) }
{
    if !named {
        return Ok(());
    }
    match count.checked_add(1) {
        None => Err(NoMemory),
        Some(more) => {
            *count = more;
            Ok(())
        }
    }
}

/// What the fault line makes of the deliveries of a parcel that is sent in a tick, of which it is known whether the line
/// names it, after this many that the line names.
fn strike_if(
    fault: Fault,
    tick: u32,
    parcel: &Parcel,
    named: bool,
    count: u64,
    deliveries: &mut Vec<Delivery>,
) -> Result<(), NoMemory>
    requires { named ≡ specs.names fault parcel.now }
    ensures { (earlier : List ParcelModel) → count ≡ count_of earlier fault
        → OnOk result (deliveries_in deliveries.new.items ≡ after_fault tick earlier parcel.now fault (deliveries_in deliveries.old.items)) }
{
    if strikes(fault, tick, parcel, named, count) {
        strike(fault, parcel, deliveries)?;
    }
    Ok(())
}

/// A parcel that is sent in a tick passes the fault line, which keeps count of those that it names.
fn pass(
    fault: Fault,
    tick: u32,
    parcel: &Parcel,
    own: Option<u8>,
    count: &mut u64,
    deliveries: &mut Vec<Delivery>,
) -> Result<(), NoMemory>
    requires { own ≡ kind_in_frame parcel.now.frame }
    ensures counted { (earlier : List ParcelModel) → count.old ≡ count_of earlier fault
        → OnOk result (count.new ≡ count_of (earlier ++ parcel.now ∷ []) fault) }
    ensures passed { (earlier : List ParcelModel) → count.old ≡ count_of earlier fault
        → OnOk result (deliveries_in deliveries.new.items ≡ after_fault tick earlier parcel.now fault (deliveries_in deliveries.old.items)) }
{
    let named = names(fault, parcel, own);
    strike_if(fault, tick, parcel, named, *count, deliveries)?;
    count_one(named, count)?;
    Ok(())
}

/// A parcel that is sent in a tick passes all fault lines, of which these are the counts.
pub fn pass_all(
    faults: &[Fault],
    tick: u32,
    parcel: &Parcel,
    own: Option<u8>,
    counts: &mut [u64],
    deliveries: &mut Vec<Delivery>,
) -> Result<(), NoMemory>
    requires own { own ≡ kind_in_frame parcel.now.frame }
    requires counts { length counts.old ≡ length faults.now }
    ensures counted { (earlier : List ParcelModel) → counts.old ≡ counts_of faults.now earlier
        → OnOk result (counts.new ≡ counts_of faults.now (earlier ++ parcel.now ∷ [])) }
    ensures passed { (earlier : List ParcelModel) → counts.old ≡ counts_of faults.now earlier
        → OnOk result (deliveries_in deliveries.new.items ≡ after_faults tick earlier parcel.now faults.now (deliveries_in deliveries.old.items)) }
{
    for place in 0..faults.len() {
        pass(
            faults[place],
            tick,
            parcel,
            own,
            &mut counts[place],
            deliveries,
        )?;
    }
    Ok(())
}
