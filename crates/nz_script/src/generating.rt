//! Scenarios that are drawn from a seed.

ghost use Rattle.std.specs.Prelude.{◌≡◌, ◌+◌, ◌*◌, ◌/◌, ◌<◌, ◌≤◌, ◌^◌, length, IfOk, OnOk, ◌∷◌};
ghost use Rattle.std.specs.Fmt.{decimal};
ghost use Rattle.nz_base.specs.declared.limits.TheConstants.{MAX_REQUESTS};
ghost use Rattle.nz_store.specs.Grammar.{spelling, IsValidCommand};
ghost use Rattle.nz_script.specs.Draws as draws_words;
ghost use Rattle.nz_script.specs.Draws.{draw_after, draws_after, drawn_key, drawn_value, command_for, request_for, requests_for};
ghost use Rattle.nz_script.specs.Draws.{script_for, scripts_for, fault_for, faults_for, scenario_of_seed};

use super::draft::new_request;
use super::printing::put_number;
use nz_base::{
    Actor, Cluster, Fault, FaultList, NoMemory, Request, RequestList, Scenario, ScriptList,
    SkewList, TryCopy,
};
use nz_store::{Blob as Text, Command};
use std::alloc::Global;

/// A linear congruential generator, of which the high bits are drawn.
#[derive(Clone, Copy, Debug)]
struct Draws {
    state: u64,
}

impl Draws {
    #[tactic(auto, unfolding(crate::specs::Draws::next))]
    fn next(&mut self) -> u64
        ensures state { self.new.state ≡ draws_words.next self.old.state }
        ensures number { result ≡ draw_after (draws_words.next self.old.state) }
    {
        self.state = self
            .state
            .wrapping_mul(6_364_136_223_846_793_005)
            .wrapping_add(1_442_695_040_888_963_407);
        self.state >> 33
    }
}

/// The letter and the number after it.
fn lettered(alloc: Global, letter: u8, number: u64) -> Result<Text, NoMemory>
    ensures { IfOk result (λ text. text ≡ letter ∷ decimal number) }
{
    let mut bytes = Vec::new(alloc);
    bytes.push(letter)?;
    put_number(&mut bytes, number)?;
    Ok(Text::from_slice(alloc, &bytes).map_err(|_| NoMemory)?)
}

fn command_of(alloc: Global, a: u64, b: u64, i: u64) -> Result<Command, NoMemory>
    ensures { IfOk result (λ command. command ≡ command_for a b i) }
{
    let key = lettered(alloc, b'k', b)?;
    match a {
        0 => {
            let value = lettered(alloc, b'v', i)?;
            Ok(Command::Put { key, value })
        }
        1 => Ok(Command::Get { key }),
        2 => Ok(Command::Del { key }),
        _ => {
            let value = lettered(alloc, b'v', i)?;
            Ok(Command::Cas {
                key,
                old: None,
                new: Some(value),
            })
        }
    }
}

fn request_of(alloc: Global, draws: &mut Draws, i: u64) -> Result<Request, NoMemory>
    requires { i < MAX_REQUESTS }
    ensures state { draws.new.state ≡ draws_words.next (draws_words.next draws.old.state) }
    ensures request { IfOk result (λ request. request ≡ request_for draws.old.state i) }
{
    let a = draws.next() % 4;
    let b = draws.next() % 16;
    let command = command_of(alloc, a, b, i)?;
    new_request(alloc, 0, &command)
}

fn requests_of(alloc: Global, draws: &mut Draws, count: u32) -> Result<RequestList, NoMemory>
    requires { count ≤ MAX_REQUESTS }
    ensures state { OnOk result (draws.new.state ≡ draws_after count draws.old.state) }
    ensures requests { IfOk result (λ requests. requests ≡ requests_for draws.old.state 0 count) }
{
    let mut requests = RequestList::new(alloc);
    for i in 0..count {
        requests.push(request_of(alloc, draws, u64::from(i))?)?;
    }
    Ok(requests)
}

fn script_of(alloc: Global, client: u32, requests: &[Request]) -> Result<RequestList, NoMemory>
    requires { length requests.now ≤ MAX_REQUESTS }
    ensures { IfOk result (λ script. script ≡ script_for client 0 requests.now) }
{
    let mut script = RequestList::new(alloc);
    let mut i = 0;
    for request in requests {
        if i % 16 == client {
            script.push(request.copy(alloc)?)?;
        }
        i += 1;
    }
    Ok(script)
}

fn scripts_of(alloc: Global, requests: &[Request]) -> Result<ScriptList, NoMemory>
    requires { length requests.now ≤ MAX_REQUESTS }
    ensures { IfOk result (λ scripts. scripts ≡ scripts_for 0 16 requests.now) }
{
    let mut scripts = ScriptList::new(alloc);
    for client in 0..16 {
        scripts.push(script_of(alloc, client, requests)?)?;
    }
    Ok(scripts)
}

fn fault_of(draws: &mut Draws, count: u32, j: u32) -> Fault
    requires { 1 ≤ count }
    ensures state { draws.new.state ≡ draws_words.next (draws_words.next draws.old.state) }
    ensures fault { result ≡ fault_for count draws.old.state j }
{
    let replica = (draws.next() % 5) as u8;
    let place = (draws.next() % u64::from(count)) as u32;
    Fault::Drop {
        from: Actor::Proxy((j % 2) as u8),
        to: Actor::Replica(replica),
        kind: 2,
        count: 1 + place,
    }
}

fn faults_of(alloc: Global, draws: &mut Draws, count: u32) -> Result<FaultList, NoMemory>
    requires { 1 ≤ count }
    ensures { IfOk result (λ faults. faults ≡ faults_for count draws.old.state 0 (count / 50)) }
{
    let mut faults = FaultList::new(alloc);
    for j in 0..count / 50 {
        faults.push(fault_of(draws, count, j))?;
    }
    Ok(faults)
}

/// The scenario that the seed draws, with this many requests, 1 to `MAX_REQUESTS`.
pub fn generate(alloc: Global, seed: u64, count: u32) -> Result<Scenario, NoMemory>
    requires some { 1 ≤ count }
    requires few { count ≤ MAX_REQUESTS }
    ensures { IfOk result (λ scenario. scenario ≡ scenario_of_seed seed count) }
{
    let Some(cluster) = Cluster::new(2) else {
        unreachable!()
    };
    let mut draws = Draws { state: seed };
    let requests = requests_of(alloc, &mut draws, count)?;
    Ok(Scenario {
        cluster,
        proxies: 2,
        clients: 16,
        window: 1,
        ticks: 1000,
        skews: SkewList::new(alloc),
        scripts: scripts_of(alloc, requests.as_slice())?,
        faults: faults_of(alloc, &mut draws, count)?,
    })
}
