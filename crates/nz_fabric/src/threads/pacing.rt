//! Whether a tick is light: its rest is done sooner by the workers that are awake than others are woken. No contract of the
//! network sees it.

ghost use Rattle.std.specs.Prelude.{nat_le, ◌≡◌};
ghost use Rattle.std.specs.List.{list_any};
ghost use Rattle.nz_msg.specs.declared.coding.TheConstants.{LONG_BODY};
ghost use Rattle.nz_fabric.specs.threads.Shared as shared;

use nz_machine::{Event, Item, Sends};
use nz_msg::LONG_BODY;

/// A tick is busy from this many items on, or if those before it had many more. The at most 81 clocks of a cluster are done
/// sooner than a thread is woken.
const BUSY_ITEMS: usize = 128;
/// A step that sends this many parcels is busy: mostly other actors have as much to send.
const BUSY_SENDS: u32 = 32;

/// Who is awake, and how much there is to do.
#[derive(Drop)]
pub struct Pacing {
    /// How many workers do not wait.
    awake: u8,
    /// The items of the tick, or half of this number in the tick before, if that is more: clocks release later what a busy
    /// tick brought.
    recent_items: usize,
    is_light: bool,
}

/// How many bytes an event brings.
fn bytes_of(event: &Event) -> usize
    ensures { result ≡ shared.bytes_of event.now }
{
    match event {
        Event::Deliver(parcel) => parcel.get().frame.len(),
        Event::Cut(kept, _) => *kept as usize,
        Event::Tick(_) | Event::Alarm | Event::Crash | Event::Restart(_) => 0,
    }
}

/// Whether some item brings a long frame. Whole logs take long.
fn has_long_frame(items: &[Item]) -> bool
    ensures { result ≡ list_any (λ i. nat_le LONG_BODY (shared.bytes_of i.event)) items.now }
{
    items.iter().any(|item| LONG_BODY <= bytes_of(&item.event))
}

/// Whether others most likely have as much to do in a tick in which a step sends this.
fn is_busy_step(sends: &Sends) -> bool {
    BUSY_SENDS <= sends.len()
        || sends
            .as_slice()
            .iter()
            .any(|sent| LONG_BODY <= sent.get().frame.len())
}

impl Pacing {
    /// Before the first tick, with so many workers, none of which waits.
    pub fn new(workers: u8) -> Pacing {
        Pacing {
            awake: workers,
            recent_items: 0,
            is_light: true,
        }
    }

    /// A tick begins with these items.
    pub fn begin_tick(&mut self, items: &[Item]) {
        self.recent_items = items.len().max(self.recent_items / 2);
        self.is_light = self.recent_items < BUSY_ITEMS && !has_long_frame(items);
    }

    /// A step of the tick sends this.
    pub fn add_step(&mut self, sends: &Sends) {
        self.is_light = self.is_light && !is_busy_step(sends);
    }

    /// Whether the tick is light.
    pub fn is_light(&self) -> bool {
        self.is_light
    }

    /// A worker begins to wait.
    pub fn fall_asleep(&mut self) {
        self.awake = self.awake.saturating_sub(1);
    }

    /// A worker waits no more.
    pub fn wake_up(&mut self) {
        self.awake = self.awake.saturating_add(1);
    }

    /// Whether all other workers wait.
    pub fn is_alone(&self) -> bool {
        self.awake == 1
    }
}
