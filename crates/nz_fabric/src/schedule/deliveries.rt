//! What one fault line makes of the deliveries of a parcel.

ghost use Rattle.std.specs.Prelude.{◌≡◌, List, map, OnOk};
ghost use Rattle.nz_machine.specs.runs.Schedule as schedule;
ghost use Rattle.nz_machine.specs.runs.Schedule.{Delivery as DeliveryModel, deliveries_later, with_copy};
ghost use Rattle.nz_fabric.specs.schedule.Posting.{delivery_as_stored};

use nz_base::NoMemory;
use smallvec::SmallVec;

/// When a copy of a parcel comes, and how many bytes of it, where not all of them come. Ticks stop at
/// 2^32 - 1, which is after the last tick of every run.
#[derive(Clone, Copy, Debug, Default)]
pub struct Delivery {
    pub tick: u32,
    pub kept: Option<u32>,
}

/// The deliveries of one parcel, in the order of the copies. One or two take no memory of their own.
pub type Deliveries = SmallVec<Delivery, 2>;

/// Every delivery comes later.
pub fn held(by: u32, deliveries: &mut [Delivery])
    ensures { (ds : List DeliveryModel) → deliveries.old ≡ map delivery_as_stored ds → deliveries.new ≡ map delivery_as_stored (deliveries_later by ds) }
{
    for place in 0..deliveries.len() {
        deliveries[place].tick = deliveries[place].tick.saturating_add(by);
    }
}

/// A whole copy comes so much later than the first delivery.
pub fn repeated(by: u32, deliveries: &mut Deliveries) -> Result<(), NoMemory>
    ensures { (ds : List DeliveryModel) → deliveries.old.items ≡ map delivery_as_stored ds
        → OnOk result (deliveries.new.items ≡ map delivery_as_stored (with_copy by ds)) }
{
    if let Some(first) = deliveries.as_slice().first() {
        let tick = first.tick.saturating_add(by);
        deliveries.push(Delivery { tick, kept: None })?;
    }
    Ok(())
}

/// Of the first delivery this many bytes come, and never all of them.
pub fn cut_short(keep: u32, len: usize, deliveries: &mut [Delivery])
    ensures { (ds : List DeliveryModel) → deliveries.old ≡ map delivery_as_stored ds
        → deliveries.new ≡ map delivery_as_stored (schedule.cut_short keep len ds) }
{
    if !deliveries.is_empty() {
        let kept = len.saturating_sub(1).min(keep as usize);
        deliveries[0].kept = Some(kept as u32);
    }
}
