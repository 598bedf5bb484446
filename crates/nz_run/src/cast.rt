//! The cores of all actors.

ghost use Rattle.std.specs.Prelude.{◌≡◌, ◌<◌, ◌==◌, ◌∷◌, [], ℕ, List, length, map, get_or, true, IfOk, OnOk};
ghost use Rattle.nz_base.specs.Actor.{actor_eq};
ghost use Rattle.nz_base.specs.Cluster.{replica_count};
ghost use Rattle.nz_base.specs.declared.actor.Actor.{Actor as ActorModel};
ghost use Rattle.nz_machine.specs.declared.event.Record.{Record};
ghost use Rattle.nz_machine.specs.rules.Replicas.{numbers_below};
ghost use Rattle.nz_machine.specs.runs.Schedule.{group_of, IsPlayable};
ghost use Rattle.nz_machine.specs.rules.State.{Group};
ghost use Rattle.nz_machine.specs.runs.World.{IsMember};
ghost use Rattle.nz_replica.specs.Models.{AreCores};
ghost use Rattle.nz_run.specs.Casts.{AreAt, IsCast, record_of, sends_of, new_replica, new_proxy, new_client};

use nz_base::{Actor, NoMemory, Scenario, TryCopy};
use nz_client::Client;
use nz_machine::{Core, Event, Sends};
use nz_proxy::Proxy;
use nz_replica::Replica;
use std::alloc::Global;

/// The cores of all actors, each found by its number.
#[derive(Drop)]
pub struct Cast {
    pub replicas: Vec<Replica>,
    pub proxies: Vec<Proxy>,
    pub clients: Vec<Client>,
}

fn make_replicas(alloc: Global, scenario: &Scenario) -> Result<Vec<Replica>, NoMemory>
    ensures { IfOk result (λ v. v.items ≡ map (new_replica scenario.now.cluster) (numbers_below (replica_count scenario.now.cluster))) }
{
    let mut made = Vec::new(alloc);
    for me in 0..scenario.cluster.n() {
        made.push(Replica::new(alloc, scenario.cluster, me)?)?;
    }
    Ok(made)
}

fn make_proxies(alloc: Global, scenario: &Scenario) -> Result<Vec<Proxy>, NoMemory>
    requires { IsPlayable scenario.now }
    ensures { IfOk result (λ v. v.items ≡ map (new_proxy scenario.now.cluster) (numbers_below scenario.now.proxies)) }
{
    let mut made = Vec::new(alloc);
    for me in 0..scenario.proxies {
        made.push(Proxy::new(alloc, scenario.cluster, me))?;
    }
    Ok(made)
}

fn make_client(alloc: Global, scenario: &Scenario, me: u8) -> Result<Client, NoMemory>
    requires playable { IsPlayable scenario.now }
    requires client { me < scenario.now.clients }
    ensures { IfOk result (λ client. client ≡ new_client scenario.now me) }
{
    let script = scenario.scripts.get(u32::from(me)).copy(alloc)?;
    Ok(Client::new(alloc, me, scenario.proxies, scenario.window, script))
}

fn make_clients(alloc: Global, scenario: &Scenario) -> Result<Vec<Client>, NoMemory>
    requires { IsPlayable scenario.now }
    ensures { IfOk result (λ v. v.items ≡ map (new_client scenario.now) (numbers_below scenario.now.clients)) }
{
    let mut made = Vec::new(alloc);
    for me in 0..scenario.clients {
        made.push(make_client(alloc, scenario, me)?)?;
    }
    Ok(made)
}

/// The core of a place takes the event.
fn step_at<C: Core>(cores: &mut Vec<C>, place: u8, event: &Event) -> Result<Sends, NoMemory>
    requires place { place < length cores.old.items }
    requires live { (d : C) → C.live (get_or cores.old.items place d) ≡ true }
    ensures length { length cores.new.items ≡ length cores.old.items }
    ensures step { IfOk result (λ sends. (g : Group) (named : ℕ → ActorModel) (J : List Record) (tick : ℕ)
        → ((i k : ℕ) → actor_eq (named i) (named k) ≡ (i == k)) → AreAt C.meaning C.live C.fits g named J cores.old.items
        → (sends ≡ sends_of g J (named place) event.now)
        × AreAt C.meaning C.live C.fits g named (record_of tick (named place) event.now sends ∷ J) cores.new.items) }
{
    cores[usize::from(place)].step(event)
}

impl Cast {
    /// Cores in their first states.
    pub fn new(alloc: Global, scenario: &Scenario) -> Result<Cast, NoMemory>
        requires { IsPlayable scenario.now }
        ensures { IfOk result (λ cast. IsCast (group_of scenario.now) [] cast) }
    {
        Ok(Cast {
            replicas: make_replicas(alloc, scenario)?,
            proxies: make_proxies(alloc, scenario)?,
            clients: make_clients(alloc, scenario)?,
        })
    }

    /// The actor's core takes the event.
    pub fn step(&mut self, actor: Actor, event: &Event) -> Result<Sends, NoMemory>
        requires { (g : Group) × ((J : List Record) × (IsCast g J self.old × IsMember g actor)) }
        ensures { IfOk result (λ sends. (g : Group) (J : List Record) (tick : ℕ) → IsCast g J self.old → IsMember g actor
            → (sends ≡ sends_of g J actor event.now) × IsCast g (record_of tick actor event.now sends ∷ J) self.new) }
    {
        match actor {
            Actor::Replica(number) => step_at(&mut self.replicas, number, event),
            Actor::Proxy(number) => step_at(&mut self.proxies, number, event),
            Actor::Client(number) => step_at(&mut self.clients, number, event),
        }
    }

    /// The replicas, by their numbers.
    pub fn into_replicas(self) -> Vec<Replica>
        ensures cores { (g : Group) (J : List Record) → IsCast g J self → AreCores g J result.items }
        ensures all { length result.items ≡ length self.replicas.items }
    {
        let Cast { replicas, .. } = self;
        replicas
    }
}
