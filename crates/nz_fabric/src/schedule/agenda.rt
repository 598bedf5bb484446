//! The items of a tick, and how many of them were taken.

ghost use Rattle.std.specs.Prelude.{◌≡◌, ◌<◌, ◌≤◌, ◌+◌, ◌^◌, ◌↔◌, length, map, drop, take, not, slice_get, Some, IsTrue, IfOk, OnErr};
ghost use Rattle.std.specs.List.{position};
ghost use Rattle.nz_base.specs.Actor.{actor_eq};
ghost use Rattle.nz_machine.specs.runs.Schedule.{item};
ghost use Rattle.nz_fabric.specs.threads.Shared.{run_of};
ghost use Rattle.nz_fabric.specs.schedule.Agendas.{at_start};

use nz_base::{Actor, List, NoMemory};
use nz_machine::{Event, Item};
use std::alloc::Global;
use std::marker::Model;
use std::snapshot::Snapshot;

/// What is due in a tick. An item is moved out when it is taken. Contracts see all items, taken or not, and how many were taken.
#[derive(Drop)]
pub struct Agenda {
    /// The items, but that those which were moved out have left others in their places. None, once their memory was taken.
    items: Vec<Item>,
    /// How many items there are, taken or not.
    count: usize,
    next: usize,
    /// The items as they all were, which the proofs alone know.
    whole: Snapshot<Vec<Item>>,
}

impl Model for Agenda {
    ghost use Rattle.std.specs.Prelude.{◌≡◌, ◌≤◌, ◌-◌, drop, length};
    ghost use Rattle.nz_fabric.specs.schedule.Agendas.{Progress};

    ghost Value = { Progress };

    ghost view = { λ a. record { items = a.whole.value.items; next = a.next } };

    ghost invariant = { λ a. (drop a.next a.items.items ≡ drop a.next a.whole.value.items)
        × (length a.items.items - a.next ≡ length a.whole.value.items - a.next)
        × (a.count ≡ length a.whole.value.items) × (a.next ≤ a.count) };
}

/// An item that nobody is to do, for a place that has none.
pub fn no_item() -> Item {
    Item {
        actor: Actor::Replica(0),
        event: Event::Alarm,
    }
}

/// The place of the first item that is not of this actor.
fn run_end(actor: Actor, items: &[Item]) -> Option<usize>
    ensures { result ≡ position (λ i. not (actor_eq i.actor actor)) items.now }
{
    items.iter().position(|item| !item.actor.is(&actor))
}

/// The events of so many items from a place on, which have others in their places then.
fn move_events(
    alloc: Global,
    items: &mut Vec<Item>,
    from: usize,
    count: usize,
) -> Result<List<Event>, NoMemory>
    requires within { from + count ≤ length items.old.items }
    requires few { count < 2 ^ 32 }
    ensures events { IfOk result (λ events. events ≡ map (λ i. i.event) (take count (drop from items.old.items))) }
    ensures left { drop (from + count) items.new.items ≡ drop (from + count) items.old.items }
    ensures len { length items.new.items ≡ length items.old.items }
    ensures err { OnErr result (items.new.items ≡ items.old.items) }
{
    let mut events = Vec::with_capacity(alloc, count)?;
    for place in 0..count {
        let event = &mut items[from + place].event;
        events.push_reserved(std::mem::replace(event, Event::Alarm));
    }
    Ok(List::from_vec(events))
}

impl Agenda {
    /// None of the items was taken.
    pub fn new(items: Vec<Item>) -> Agenda
        ensures { result ≡ at_start items.items }
    {
        let whole = Snapshot::of(&items);
        Agenda {
            count: items.len(),
            items,
            next: 0,
            whole,
        }
    }

    /// Whether all were taken.
    pub fn is_done(&self) -> bool
        ensures { IsTrue result ↔ (self.now.next ≡ length self.now.items) }
    {
        self.next == self.count
    }

    /// The next item is moved out.
    pub fn take(&mut self) -> Item
        requires { self.old.next < length self.old.items }
        ensures item { slice_get self.old.items self.old.next ≡ Some result }
        ensures items { self.new.items ≡ self.old.items }
        ensures next { self.new.next ≡ self.old.next + 1 }
    {
        let item = std::mem::replace(&mut self.items[self.next], no_item());
        self.next += 1;
        item
    }

    /// How many items there are, taken or not.
    pub fn len(&self) -> usize
        ensures { result ≡ length self.now.items }
    {
        self.count
    }

    /// How many were taken.
    pub fn taken_count(&self) -> usize
        ensures { result ≡ self.now.next }
    {
        self.next
    }

    /// The next item.
    pub fn peek(&self) -> &Item
        requires { self.now.next < length self.now.items }
        ensures { slice_get self.now.items self.now.next ≡ Some result.now }
    {
        &self.items[self.next]
    }

    /// The next item and those after it that are of the same actor, as its events, which are moved out.
    pub fn take_run(&mut self, alloc: Global) -> Result<(Actor, List<Event>), NoMemory>
        requires some { self.old.next < length self.old.items }
        requires few { length self.old.items < 2 ^ 32 }
        ensures some { IfOk result (λ r. 0 < length r.1) }
        ensures run { IfOk result (λ r. map (item r.0) r.1 ≡ run_of r.0 (drop self.old.next self.old.items)) }
        ensures ok { IfOk result (λ r. self.new ≡ record self.old { next = self.old.next + length r.1 }) }
        ensures err { OnErr result (self.new ≡ self.old) }
    {
        let left = &self.items[self.next..];
        let actor = left[0].actor;
        let count = run_end(actor, left).unwrap_or(left.len());
        let events = move_events(alloc, &mut self.items, self.next, count)?;
        self.next += count;
        Ok((actor, events))
    }

    /// The memory of the items, for those of the next tick, once all were taken.
    pub fn take_memory(&mut self, alloc: Global) -> Vec<Item>
        requires { self.old.next ≡ length self.old.items }
        ensures { self.new ≡ self.old }
    {
        std::mem::replace(&mut self.items, Vec::new(alloc))
    }
}
