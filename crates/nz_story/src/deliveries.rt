//! What one fault line makes of the deliveries of a parcel that it strikes.

ghost use Rattle.std.specs.Prelude.{◌≡◌, OnOk};
ghost use Rattle.nz_machine.specs.runs.Schedule as schedule;
ghost use Rattle.nz_machine.specs.runs.Schedule.{deliveries_later, with_copy};
ghost use Rattle.nz_story.specs.Passes.{deliveries_in, after_strike};

use nz_base::{Fault, NoMemory};
use nz_machine::Parcel;

/// When a copy of a parcel comes, and how many bytes of it, where not all of them come. It may be after the last tick.
#[derive(Clone, Copy, Debug)]
pub struct Delivery {
    pub tick: u64,
    pub kept: Option<u32>,
}

/// Every delivery comes later. A tick that 64 bits do not hold, which no scenario reaches, is answered by `NoMemory`.
fn hold(by: u32, deliveries: &mut [Delivery]) -> Result<(), NoMemory>
    ensures { OnOk result (deliveries_in deliveries.new ≡ deliveries_later by (deliveries_in deliveries.old)) }
{
    for place in 0..deliveries.len() {
        let Some(tick) = deliveries[place].tick.checked_add(u64::from(by)) else {
            return Err(NoMemory);
        };
        deliveries[place].tick = tick;
    }
    Ok(())
}

/// A whole copy comes so much later than the first delivery.
fn repeat(by: u32, deliveries: &mut Vec<Delivery>) -> Result<(), NoMemory>
    ensures { OnOk result (deliveries_in deliveries.new.items ≡ with_copy by (deliveries_in deliveries.old.items)) }
{
    let first = match deliveries.as_slice().first() {
        None => return Ok(()),
        Some(first) => first.tick,
    };
    match first.checked_add(u64::from(by)) {
        None => Err(NoMemory),
        Some(tick) => {
            deliveries.push(Delivery { tick, kept: None })?;
            Ok(())
        }
    }
}

/// Of the first delivery this many bytes come, and never all of them.
fn cut_short(keep: u32, len: usize, deliveries: &mut [Delivery])
    ensures { deliveries_in deliveries.new ≡ schedule.cut_short keep len (deliveries_in deliveries.old) }
{
    if !deliveries.is_empty() {
        let kept = len.saturating_sub(1).min(keep as usize);
        deliveries[0].kept = Some(kept as u32);
    }
}

/// What the fault line makes of the deliveries of a parcel that it strikes.
pub fn strike(fault: Fault, parcel: &Parcel, deliveries: &mut Vec<Delivery>) -> Result<(), NoMemory>
    ensures { OnOk result (deliveries_in deliveries.new.items ≡ after_strike parcel.now fault (deliveries_in deliveries.old.items)) }
{
    match fault {
        Fault::Drop { .. } | Fault::Block { .. } => deliveries.clear(),
        Fault::Hold { by, .. } => hold(by, deliveries.as_mut_slice())?,
        Fault::Twice { by, .. } => repeat(by, deliveries)?,
        Fault::Cut { keep, .. } => {
            cut_short(keep, parcel.frame.len(), deliveries.as_mut_slice());
        }
        Fault::Crash { .. } | Fault::Restart { .. } | Fault::Alarm { .. } => {}
    }
    Ok(())
}
