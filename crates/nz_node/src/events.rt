//! Items as events.
ghost use Rattle.std.specs.Prelude.{◌≡◌, IfOk};
ghost use Rattle.nz_lane.specs.Items.{IsValidItem};
ghost use Rattle.nz_lane.specs.declared.item.Item.TheVariants as items;
ghost use Rattle.nz_node.specs.Nodes as words;

use nz_base::{Actor, NoMemory};
use nz_frame::Frame;
use nz_lane::Item;
use nz_machine::{Event, Parcel, SharedParcel};
use std::alloc::Global;

/// The parcel that the frame is comes.
fn delivery(alloc: Global, frame: Frame) -> Result<Option<Event>, NoMemory>
    requires { IsValidItem (items.Frame frame) }
    ensures { IfOk result (λ event. event ≡ words.event_of (items.Frame frame)) }
{
    let (from, to) = match frame.parts() {
        Ok(view) => (view.from, view.to),
        Err(_) => unreachable!(),
    };
    let Some(from) = Actor::from_address(from) else {
        return Ok(None);
    };
    let Some(to) = Actor::from_address(to) else {
        return Ok(None);
    };
    let parcel = SharedParcel::new(alloc, Parcel { from, to, frame })?;
    Ok(Some(Event::Deliver(parcel)))
}

/// The event that the item is, if it is one.
pub fn event_of(alloc: Global, item: Item) -> Result<Option<Event>, NoMemory>
    requires { IsValidItem item }
    ensures { IfOk result (λ event. event ≡ words.event_of item) }
{
    match item {
        Item::Frame(frame) => delivery(alloc, frame),
        Item::Clock(reading) => Ok(Some(Event::Tick(reading))),
        Item::Alarm => Ok(Some(Event::Alarm)),
        Item::Crash => Ok(Some(Event::Crash)),
        Item::Restart(nonce) => Ok(Some(Event::Restart(nonce))),
        Item::Request(_) => Ok(None),
    }
}
