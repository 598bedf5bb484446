//! The actors that lines speak of.

use crate::events::event_of;
use crate::sends::step;
use crate::shows::{show_client, show_replica};
use crate::words::{byte_in, count_in};
use nz_base::{Blob, Cluster, NoMemory, Request, RequestList};
use nz_client::{Client, are_sendable};
use nz_proxy::Proxy;
use nz_replica::Replica;
use std::alloc::{AllocError, AllocFailed, Global};

/// Why the program stops.
#[derive(Debug, Drop)]
pub enum Stop {
    NoMemory,
    Input,
    Output,
}

impl From<NoMemory> for Stop {
    fn from(_: NoMemory) -> Stop {
        Stop::NoMemory
    }
}

impl From<AllocError> for Stop {
    fn from(_: AllocError) -> Stop {
        Stop::NoMemory
    }
}

impl<T: Drop> From<AllocFailed<T>> for Stop {
    fn from(_: AllocFailed<T>) -> Stop {
        Stop::NoMemory
    }
}

/// All replicas of a cluster, its proxy 0, and a client.
#[derive(Drop)]
pub struct Stage {
    replicas: Vec<Replica>,
    proxies: Vec<Proxy>,
    clients: Vec<Client>,
}

/// All replicas of a cluster.
fn replicas_of(alloc: Global, cluster: Cluster) -> Result<Vec<Replica>, NoMemory> {
    let mut replicas = Vec::new(alloc);
    for me in 0..cluster.n() {
        replicas.push(Replica::new(alloc, cluster, me)?)?;
    }
    Ok(replicas)
}

/// Reads of `a`, each with its wait.
fn script_of(alloc: Global, waits: &[&str]) -> Result<RequestList, Stop> {
    let mut script = RequestList::new(alloc);
    for wait in waits {
        script.push(Request {
            wait: count_in(wait)?,
            command: Blob::from_slice(alloc, &[2, 1, b'a'])?,
        })?;
    }
    Ok(script)
}

/// Client 1 of three proxies, with a window of 1.
fn client_of(alloc: Global, waits: &[&str]) -> Result<Client, Stop> {
    let script = script_of(alloc, waits)?;
    if !are_sendable(&script) {
        return Err(Stop::Input);
    }
    Ok(Client::new(alloc, 1, 3, 1, script))
}

impl Stage {
    pub fn new(alloc: Global) -> Stage {
        Stage {
            replicas: Vec::new(alloc),
            proxies: Vec::new(alloc),
            clients: Vec::new(alloc),
        }
    }

    fn begin_cluster(&mut self, alloc: Global, f: &str) -> Result<(), Stop> {
        let cluster = Cluster::new(byte_in(f)?).ok_or(Stop::Input)?;
        self.replicas = replicas_of(alloc, cluster)?;
        self.proxies.clear();
        self.proxies.push(Proxy::new(alloc, cluster, 0))?;
        Ok(())
    }

    fn begin_client(&mut self, alloc: Global, waits: &[&str]) -> Result<(), Stop> {
        self.clients.clear();
        self.clients.push(client_of(alloc, waits)?)?;
        Ok(())
    }

    fn step_replica(&mut self, alloc: Global, name: &str, words: &[&str]) -> Result<String, Stop> {
        let event = event_of(alloc, words)?;
        let place = usize::from(byte_in(name)?);
        match self.replicas.get_mut(place) {
            Some(replica) => step(alloc, replica, &event),
            None => Err(Stop::Input),
        }
    }

    fn step_proxy(&mut self, alloc: Global, words: &[&str]) -> Result<String, Stop> {
        let event = event_of(alloc, words)?;
        match self.proxies.first_mut() {
            Some(proxy) => step(alloc, proxy, &event),
            None => Err(Stop::Input),
        }
    }

    fn step_client(&mut self, alloc: Global, words: &[&str]) -> Result<String, Stop> {
        let event = event_of(alloc, words)?;
        match self.clients.first_mut() {
            Some(client) => step(alloc, client, &event),
            None => Err(Stop::Input),
        }
    }

    fn show(&self, alloc: Global, name: &str) -> Result<String, Stop> {
        let place = usize::from(byte_in(name)?);
        match self.replicas.get(place) {
            Some(replica) => show_replica(alloc, replica),
            None => Err(Stop::Input),
        }
    }

    fn show_client(&self, alloc: Global) -> Result<String, Stop> {
        match self.clients.first() {
            Some(client) => show_client(alloc, client),
            None => Err(Stop::Input),
        }
    }

    fn answer_words(&mut self, alloc: Global, words: &[&str]) -> Result<String, Stop> {
        match *words {
            ["cluster", f] => self.begin_cluster(alloc, f)?,
            ["script", ref waits @ ..] => self.begin_client(alloc, waits)?,
            ["replica", name, "show"] => return self.show(alloc, name),
            ["replica", name, ref words @ ..] => return self.step_replica(alloc, name, words),
            ["proxy", ref words @ ..] => return self.step_proxy(alloc, words),
            ["client", "show"] => return self.show_client(alloc),
            ["client", ref words @ ..] => return self.step_client(alloc, words),
            _ => return Err(Stop::Input),
        }
        Ok(String::new(alloc))
    }

    /// What is printed for a line. One that begins with `#` is printed as it is.
    pub fn answer(&mut self, alloc: Global, line: &str) -> Result<String, Stop> {
        if line.starts_with('#') {
            return Ok(format!(in alloc; "{line}\n")?);
        }
        let mut words = Vec::new(alloc);
        for word in line.split(' ') {
            words.push(word)?;
        }
        self.answer_words(alloc, &words)
    }
}
