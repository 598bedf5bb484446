//! What is due in a tick before what arrives: fault lines and clocks.

ghost use Rattle.std.specs.Prelude.{◌≡◌, ◌<◌, ◌≤◌, ◌+◌, ◌-◌, ◌*◌, ◌^◌, ◌∷◌, ◌++◌, [], ℕ, length, map, vec_capacity, IfOk, OnOk};
ghost use Rattle.nz_base.specs.Cluster.{replica_count};
ghost use Rattle.nz_machine.specs.rules.Replicas.{numbers_below};
ghost use Rattle.nz_machine.specs.runs.Schedule as schedule;
ghost use Rattle.nz_machine.specs.runs.Schedule.{item, if_in, calls, skew_of, actors_of, tick_item};
ghost use Rattle.nz_fabric.specs.schedule.Dues.{actor_of_sort, restarts_in};
ghost use Rattle.nz_fabric.specs.schedule.Numbered.{items_under};

use crate::schedule::numbered::Numbered;
use nz_base::{Actor, Fault, MAX_CLOCK, NoMemory, Scenario, Skew, TryCopy, UNITS_PER_TICK};
use nz_machine::{Event, Item};
use std::alloc::Global;

/// The sorts of actors, in their order.
#[derive(Clone, Copy, Debug)]
pub enum Sort {
    Replicas,
    Proxies,
    Clients,
}

impl Sort {
    pub fn actor(self, number: u8) -> Actor
        ensures { result ≡ actor_of_sort self number }
    {
        match self {
            Sort::Replicas => Actor::Replica(number),
            Sort::Proxies => Actor::Proxy(number),
            Sort::Clients => Actor::Client(number),
        }
    }
}

/// An event of an actor goes last into its tick.
fn push_event(
    alloc: Global,
    asked: &mut Numbered<Item>,
    at: u32,
    actor: Actor,
    event: Event,
) -> Result<(), NoMemory>
    ensures { OnOk result ((tick : ℕ) → items_under asked.new tick ≡ items_under asked.old tick ++ if_in tick at (item actor event)) }
{
    asked.push(alloc, u64::from(at), Item { actor, event })
}

/// What a fault line asks of an actor, after this many restart lines, goes last into its tick.
fn push_call(
    alloc: Global,
    asked: &mut Numbered<Item>,
    restarts: &mut u64,
    fault: &Fault,
) -> Result<(), NoMemory>
    requires { restarts.old < 2 ^ 64 - 1 }
    ensures items { OnOk result ((tick : ℕ) → items_under asked.new tick ≡ items_under asked.old tick ++ calls tick restarts.old (fault.now ∷ [])) }
    ensures restarts { OnOk result (restarts.new ≡ restarts.old + restarts_in (fault.now ∷ [])) }
{
    match fault {
        Fault::Crash { actor, tick } => push_event(alloc, asked, *tick, *actor, Event::Crash),
        Fault::Restart { actor, tick } => {
            *restarts += 1;
            push_event(alloc, asked, *tick, *actor, Event::Restart(*restarts))
        }
        Fault::Alarm { actor, tick } => push_event(alloc, asked, *tick, *actor, Event::Alarm),
        _ => Ok(()),
    }
}

/// What the fault lines ask of actors in each tick: crashes, restarts and alarms, in the order of the lines.
pub fn calls_of(alloc: Global, faults: &[Fault]) -> Result<Numbered<Item>, NoMemory>
    ensures { IfOk result (λ asked. (tick : ℕ) → items_under asked tick ≡ calls tick 0 faults.now) }
{
    let mut asked = Numbered::new(alloc);
    let mut restarts = 0;
    for fault in faults {
        push_call(alloc, &mut asked, &mut restarts, fault)?;
    }
    Ok(asked)
}

/// Copies of the items go last.
fn push_copies(alloc: Global, items: &mut Vec<Item>, more: &[Item]) -> Result<(), NoMemory>
    ensures { OnOk result (items.new.items ≡ items.old.items ++ more.now) }
{
    for item in more {
        let event = item.event.copy(alloc)?;
        items.push(Item {
            actor: item.actor,
            event,
        })?;
    }
    Ok(())
}

/// How many clock units the actor's clock is ahead.
fn units_of(skews: &[Skew], actor: Actor) -> i64
    ensures { result ≡ skew_of actor skews.now }
{
    for skew in skews {
        if skew.actor.is(&actor) {
            return skew.units;
        }
    }
    0
}

/// What the actor's clock reads in a tick.
fn clock_at(scenario: &Scenario, tick: u32, actor: Actor) -> u64
    ensures { result ≡ schedule.clock_at scenario.now tick actor }
{
    let units = units_of(scenario.skews.as_slice(), actor);
    (UNITS_PER_TICK * u64::from(tick))
        .saturating_add_signed(units)
        .min(MAX_CLOCK)
}

/// The clocks of the first actors of a sort, where there is room.
fn push_sort(items: &mut Vec<Item>, scenario: &Scenario, tick: u32, sort: Sort, count: u8)
    requires { length items.old.items + count ≤ vec_capacity items.old }
    ensures items { items.new.items ≡ items.old.items ++ map (tick_item scenario.now tick) (map (actor_of_sort sort) (numbers_below count)) }
    ensures len { length items.new.items ≡ length items.old.items + count }
    ensures capacity { vec_capacity items.new ≡ vec_capacity items.old }
{
    for number in 0..count {
        let actor = sort.actor(number);
        let event = Event::Tick(clock_at(scenario, tick, actor));
        items.push_reserved(Item { actor, event });
    }
}

/// Every clock, where there is room.
fn push_clocks(items: &mut Vec<Item>, scenario: &Scenario, tick: u32)
    requires { let s = scenario.now in length items.old.items + (replica_count s.cluster + s.proxies + s.clients) ≤ vec_capacity items.old }
    ensures { items.new.items ≡ items.old.items ++ map (tick_item scenario.now tick) (actors_of scenario.now) }
{
    push_sort(items, scenario, tick, Sort::Replicas, scenario.cluster.n());
    push_sort(items, scenario, tick, Sort::Proxies, scenario.proxies);
    push_sort(items, scenario, tick, Sort::Clients, scenario.clients);
}

/// How many actors there are.
fn actor_count(scenario: &Scenario) -> usize
    ensures count { let s = scenario.now in result ≡ replica_count s.cluster + s.proxies + s.clients }
    ensures few { result < 768 }
{
    let (proxies, clients) = (scenario.proxies, scenario.clients);
    usize::from(scenario.cluster.n()) + usize::from(proxies) + usize::from(clients)
}

/// How many records the clocks of a run make: one of each actor in each tick.
pub fn clocks_of(scenario: &Scenario) -> usize
    ensures { let s = scenario.now in result ≡ (replica_count s.cluster + s.proxies + s.clients) * s.ticks }
{
    let ticks = scenario.ticks;
    actor_count(scenario) * ticks as usize
}

/// What is due in a tick before what arrives: what is asked of actors, then every clock. It is kept in the memory of other
/// items, which are gone. There is room for this many more.
pub fn due_items(
    alloc: Global,
    memory: Vec<Item>,
    scenario: &Scenario,
    asked: &[Item],
    tick: u32,
    more: usize,
) -> Result<Vec<Item>, NoMemory>
    ensures due { IfOk result (λ v. v.items ≡ asked.now ++ map (tick_item scenario.now tick) (actors_of scenario.now)) }
    ensures room { IfOk result (λ v. length v.items + more ≤ vec_capacity v) }
{
    let clocks = actor_count(scenario);
    let mut items = memory;
    items.clear();
    items.reserve(clocks.saturating_add(more))?;
    push_copies(alloc, &mut items, asked)?;
    items.reserve(clocks)?;
    push_clocks(&mut items, scenario, tick);
    items.reserve(more)?;
    Ok(items)
}
