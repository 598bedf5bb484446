//! The deliveries of a parcel, by fault lines.

ghost use Rattle.std.specs.Prelude.{◌≡◌, ◌+◌, ◌&&◌, ◌==◌, ◌∷◌, ◌++◌, [], List, map, IfOk, OnOk};
ghost use Rattle.nz_machine.specs.declared.event.Parcel.{Parcel as ParcelModel};
ghost use Rattle.nz_machine.specs.runs.Schedule as schedule;
ghost use Rattle.nz_machine.specs.runs.Schedule.{Delivery as DeliveryModel, is_parcel_of, kind_in_frame, whole_in, after_fault, after_faults};
ghost use Rattle.nz_fabric.specs.schedule.Calendars as calendars;
ghost use Rattle.nz_fabric.specs.schedule.Posting as posting;
ghost use Rattle.nz_fabric.specs.schedule.Posting.{delivery_as_stored, after_strike, HasNumber};

use crate::schedule::deliveries::{Deliveries, Delivery, cut_short, held, repeated};
use nz_base::{Actor, Fault, NoMemory};
use nz_machine::Parcel;
use std::alloc::Global;

/// Whether a parcel whose frame has this kind is of a kind from the one actor to the other.
fn is_of(from: Actor, to: Actor, kind: u8, parcel: &Parcel, own: Option<u8>) -> bool
    requires { own ≡ kind_in_frame parcel.now.frame }
    ensures { result ≡ is_parcel_of from to kind parcel.now }
{
    own == Some(kind) && parcel.from.is(&from) && parcel.to.is(&to)
}

/// Whether a parcel is of this kind from the one actor to the other, and has the number of the line.
fn is_numbered(
    from: Actor,
    to: Actor,
    kind: u8,
    count: u32,
    parcel: &Parcel,
    own: Option<u8>,
    number: u64,
) -> bool
    requires { own ≡ kind_in_frame parcel.now.frame }
    ensures { result ≡ ((number == count) && is_parcel_of from to kind parcel.now) }
{
    number == u64::from(count) && is_of(from, to, kind, parcel, own)
}

/// The same, by the parcels that were sent earlier.
fn is_nth(
    from: Actor,
    to: Actor,
    kind: u8,
    count: u32,
    parcel: &Parcel,
    own: Option<u8>,
    number: u64,
) -> bool
    requires { own ≡ kind_in_frame parcel.now.frame }
    ensures { (earlier : List ParcelModel) → HasNumber earlier parcel.now number → result ≡ schedule.is_nth from to kind count earlier parcel.now }
{
    is_numbered(from, to, kind, count, parcel, own, number)
}

/// Whether an end of a block names the actor.
fn is_named(end: Option<Actor>, actor: Actor) -> bool
    ensures { result ≡ schedule.is_named end actor }
{
    match end {
        None => true,
        Some(named) => named.is(&actor),
    }
}

/// Whether what is sent in a tick is blocked.
fn is_blocked(
    from: Option<Actor>,
    to: Option<Actor>,
    first: u32,
    last: u32,
    tick: u32,
    parcel: &Parcel,
) -> bool
    ensures { result ≡ schedule.is_blocked from to first last tick parcel.now }
{
    is_named(from, parcel.from) && is_named(to, parcel.to) && first <= tick && tick <= last
}

/// Whether a fault line may strike a parcel of this kind, sent in some tick and with some number.
pub fn may_strike(fault: Fault, parcel: &Parcel, own: u8) -> bool
    ensures { result ≡ calendars.may_strike parcel.now.from parcel.now.to own fault }
{
    match fault {
        Fault::Drop { from, to, kind, .. }
        | Fault::Hold { from, to, kind, .. }
        | Fault::Twice { from, to, kind, .. }
        | Fault::Cut { from, to, kind, .. } => {
            kind == own && parcel.from.is(&from) && parcel.to.is(&to)
        }
        Fault::Block { from, to, .. } => is_named(from, parcel.from) && is_named(to, parcel.to),
        Fault::Crash { .. } | Fault::Restart { .. } | Fault::Alarm { .. } => false,
    }
}

/// Whether a fault line strikes a parcel that is sent in a tick, and is the one of this number among those of its
/// sender, receiver and kind.
fn strikes(fault: Fault, tick: u32, parcel: &Parcel, own: Option<u8>, number: u64) -> bool
    requires { own ≡ kind_in_frame parcel.now.frame }
    ensures { (earlier : List ParcelModel) → HasNumber earlier parcel.now number → result ≡ posting.strikes tick earlier parcel.now fault }
{
    match fault {
        Fault::Drop {
            from,
            to,
            kind,
            count,
        }
        | Fault::Hold {
            from,
            to,
            kind,
            count,
            ..
        }
        | Fault::Twice {
            from,
            to,
            kind,
            count,
            ..
        }
        | Fault::Cut {
            from,
            to,
            kind,
            count,
            ..
        } => is_nth(from, to, kind, count, parcel, own, number),
        Fault::Block {
            from,
            to,
            first,
            last,
        } => is_blocked(from, to, first, last, tick, parcel),
        Fault::Crash { .. } | Fault::Restart { .. } | Fault::Alarm { .. } => false,
    }
}

/// What a fault line makes of the deliveries of a parcel that it strikes.
fn strike(fault: Fault, parcel: &Parcel, deliveries: &mut Deliveries) -> Result<(), NoMemory>
    ensures { (ds : List DeliveryModel) → deliveries.old.items ≡ map delivery_as_stored ds
        → OnOk result (deliveries.new.items ≡ map delivery_as_stored (after_strike parcel.now fault ds)) }
{
    match fault {
        Fault::Drop { .. } | Fault::Block { .. } => deliveries.clear(),
        Fault::Hold { by, .. } => held(by, deliveries.as_mut_slice()),
        Fault::Twice { by, .. } => repeated(by, deliveries)?,
        Fault::Cut { keep, .. } => {
            cut_short(keep, parcel.frame.len(), deliveries.as_mut_slice());
        }
        Fault::Crash { .. } | Fault::Restart { .. } | Fault::Alarm { .. } => {}
    }
    Ok(())
}

/// What a fault line makes of the deliveries of a parcel that is sent in a tick.
fn faulted(
    fault: Fault,
    tick: u32,
    parcel: &Parcel,
    own: Option<u8>,
    number: u64,
    deliveries: &mut Deliveries,
) -> Result<(), NoMemory>
    requires { own ≡ kind_in_frame parcel.now.frame }
    ensures { (earlier : List ParcelModel) (ds : List DeliveryModel) → HasNumber earlier parcel.now number → deliveries.old.items ≡ map delivery_as_stored ds
        → OnOk result (deliveries.new.items ≡ map delivery_as_stored (after_fault tick earlier parcel.now fault ds)) }
{
    if strikes(fault, tick, parcel, own, number) {
        strike(fault, parcel, deliveries)?;
    }
    Ok(())
}

/// What fault lines make of the deliveries of a parcel that is sent in a tick, each of what those before it left.
fn faulted_by_all(
    faults: &[Fault],
    tick: u32,
    parcel: &Parcel,
    own: Option<u8>,
    number: u64,
    deliveries: &mut Deliveries,
) -> Result<(), NoMemory>
    requires { own ≡ kind_in_frame parcel.now.frame }
    ensures { (earlier : List ParcelModel) (ds : List DeliveryModel) → HasNumber earlier parcel.now number → deliveries.old.items ≡ map delivery_as_stored ds
        → OnOk result (deliveries.new.items ≡ map delivery_as_stored (after_faults tick earlier parcel.now faults.now ds)) }
{
    for fault in faults {
        faulted(*fault, tick, parcel, own, number, deliveries)?;
    }
    Ok(())
}

/// The deliveries of a parcel that is sent in a tick, as the first fault lines leave them, and then the others.
pub fn deliveries_of(
    alloc: Global,
    first: &[Fault],
    then: &[Fault],
    tick: u32,
    parcel: &Parcel,
    own: Option<u8>,
    number: u64,
) -> Result<Deliveries, NoMemory>
    requires { own ≡ kind_in_frame parcel.now.frame }
    ensures { (earlier : List ParcelModel) → HasNumber earlier parcel.now number
        → IfOk result (λ v. v.items ≡ map delivery_as_stored (after_faults tick earlier parcel.now (first.now ++ then.now) (whole_in (tick + 1) ∷ []))) }
{
    let mut deliveries = Deliveries::new(alloc);
    deliveries.push(Delivery {
        tick: tick.saturating_add(1),
        kept: None,
    })?;
    faulted_by_all(first, tick, parcel, own, number, &mut deliveries)?;
    faulted_by_all(then, tick, parcel, own, number, &mut deliveries)?;
    Ok(deliveries)
}
