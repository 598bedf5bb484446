//! The order in which the items of a tick are done where several workers do them: grouped by actor.

ghost use Rattle.std.specs.Prelude.{◌<◌, IsPermutation};

use nz_base::Actor;
use nz_machine::{Event, Item};

/// A number that orders actors: replicas, then proxies, then clients.
fn rank(actor: Actor) -> u32
    ensures { result < 768 }
{
    match actor {
        Actor::Replica(number) => u32::from(number),
        Actor::Proxy(number) => 256 + u32::from(number),
        Actor::Client(number) => 512 + u32::from(number),
    }
}

/// A number that orders an actor's items by what they come of: crashes, restarts and alarms, then the clock, then parcels by
/// their senders.
fn cause(event: &Event) -> u32
    ensures { result < 1024 }
{
    match event {
        Event::Crash | Event::Restart(_) | Event::Alarm => 0,
        Event::Tick(_) => 1,
        Event::Deliver(parcel) | Event::Cut(_, parcel) => 2 + rank(parcel.get().from),
    }
}

/// Sorts the items by actor: replicas first, since they have most to do. Those of an actor are sorted by cause, and
/// the parcels of a sender keep their order. Where there is no memory to sort, they stay as they are.
pub fn group(items: &mut Vec<Item>)
    ensures { IsPermutation items.old.items items.new.items }
{
    let _ = items.sort_by_cached_key(|item| 1024 * rank(item.actor) + cause(&item.event));
}
