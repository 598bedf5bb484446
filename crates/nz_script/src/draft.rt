//! What was read of a scenario so far.

ghost use Rattle.std.specs.Prelude.{◌≡◌, ◌+◌, ◌<◌, ◌≤◌, IfOk, IsTrue, OnOk};
ghost use Rattle.nz_base.specs.declared.limits.TheConstants.{MAX_F, MAX_REQUESTS};
ghost use Rattle.nz_store.specs.Grammar.{spelling, IsValidCommand};
ghost use Rattle.nz_script.specs.Shapes.{forms_of, head_shape_of};
ghost use Rattle.nz_script.specs.Drafts.{all_within, has_room_for_line, command_asked, fault_in, skew_in, with_head};
ghost use Rattle.nz_script.specs.Drafts.{with_request, with_script, with_words, first_draft, scenario_of};

use super::group::Group;
use super::line_forms::{Ask, Head, Mishap, Place, Verb};
use super::word::{
    Word, WordList, actor_at, actors_at, byte_at, choice_of, kind_at, number_at, text_of, units_at,
};
use bytes::Bytes;
use nz_base::{
    Blob, Cluster, Fault, FaultList, NoMemory, Request, RequestList, Scenario, ScriptList, Skew,
    SkewList,
};
use nz_store::{Command, write_command};
use std::alloc::Global;

/// What has been read of a scenario.
#[derive(Debug, Drop)]
pub struct Draft {
    pub place: Place,
    /// That of the language, 1 or 2.
    pub version: u8,
    pub group: Group,
    pub ticks: u32,
    pub skews: SkewList,
    /// The whole blocks.
    pub scripts: ScriptList,
    /// The requests so far of the block that is open.
    pub block: RequestList,
    /// What the next request is to wait.
    pub wait: u32,
    /// How many requests were read in all.
    pub requests: u32,
    pub faults: FaultList,
}

/// The request of this command. Copies of it share the command's bytes.
pub fn new_request(alloc: Global, wait: u32, command: &Command) -> Result<Request, NoMemory>
    requires { IsValidCommand command.now }
    ensures { IfOk result (λ request. request ≡ record { wait = wait; command = spelling command.now }) }
{
    let mut bytes = Vec::new(alloc);
    write_command(&mut bytes, command.lend()).map_err(|_| NoMemory)?;
    let command = Blob::from_bytes(Bytes::from_vec(bytes)?);
    Ok(Request { wait, command })
}

/// The command that the words mean. Its key and values are not copied.
pub fn command_of(alloc: Global, ask: Ask, words: WordList) -> Result<Command, NoMemory>
    ensures { IfOk result (λ command. command ≡ command_asked ask words) }
{
    let mut words = words.into_vec().into_iter();
    let key = text_of(alloc, words.next())?;
    match ask {
        Ask::Put => {
            let value = text_of(alloc, words.next())?;
            Ok(Command::Put { key, value })
        }
        Ask::Get => Ok(Command::Get { key }),
        Ask::Del => Ok(Command::Del { key }),
        Ask::Cas => {
            let old = choice_of(words.next());
            let new = choice_of(words.next());
            Ok(Command::Cas { key, old, new })
        }
    }
}

fn fault_of(mishap: Mishap, words: &[Word]) -> Fault
    ensures { result ≡ fault_in mishap words.now }
{
    match mishap {
        Mishap::Drop => Fault::Drop {
            from: actor_at(words, 0),
            to: actor_at(words, 1),
            kind: kind_at(words, 2),
            count: number_at(words, 3),
        },
        Mishap::Hold => Fault::Hold {
            from: actor_at(words, 0),
            to: actor_at(words, 1),
            kind: kind_at(words, 2),
            count: number_at(words, 3),
            by: number_at(words, 4),
        },
        Mishap::Twice => Fault::Twice {
            from: actor_at(words, 0),
            to: actor_at(words, 1),
            kind: kind_at(words, 2),
            count: number_at(words, 3),
            by: number_at(words, 4),
        },
        Mishap::Cut => Fault::Cut {
            from: actor_at(words, 0),
            to: actor_at(words, 1),
            kind: kind_at(words, 2),
            count: number_at(words, 3),
            keep: number_at(words, 4),
        },
        Mishap::Block => Fault::Block {
            from: actors_at(words, 0),
            to: actors_at(words, 1),
            first: number_at(words, 2),
            last: number_at(words, 3),
        },
        Mishap::Crash => Fault::Crash {
            actor: actor_at(words, 0),
            tick: number_at(words, 1),
        },
        Mishap::Restart => Fault::Restart {
            actor: actor_at(words, 0),
            tick: number_at(words, 1),
        },
        Mishap::Alarm => Fault::Alarm {
            actor: actor_at(words, 0),
            tick: number_at(words, 1),
        },
    }
}

fn skew_of(words: &[Word]) -> Skew
    ensures { result ≡ skew_in words.now }
{
    Skew {
        actor: actor_at(words, 0),
        units: units_at(words, 1),
    }
}

/// The cluster of the number, which is from 1 to `MAX_F`.
fn cluster_of(f: u8) -> Cluster
    requires low { 1 ≤ f }
    requires high { f ≤ MAX_F }
    ensures { result ≡ f }
{
    match Cluster::new(f) {
        Some(cluster) => cluster,
        None => unreachable!(),
    }
}

impl Draft {
    /// Before the first line.
    pub fn new(alloc: Global) -> Draft
        ensures { result ≡ first_draft }
    {
        Draft {
            place: Place::Version,
            version: 1,
            group: Group {
                cluster: cluster_of(1),
                proxies: 1,
                clients: 1,
                window: 1,
            },
            ticks: 1,
            skews: SkewList::new(alloc),
            scripts: ScriptList::new(alloc),
            block: RequestList::new(alloc),
            wait: 0,
            requests: 0,
            faults: FaultList::new(alloc),
        }
    }

    fn take_head(&mut self, head: Head, words: &[Word])
        requires { IsTrue (all_within (head_shape_of head).forms words.now) }
        ensures { self.new ≡ with_head self.old head words.now }
    {
        match head {
            Head::Version => {
                self.place = Place::Faulty;
                self.version = byte_at(words, 0);
            }
            Head::Faulty => {
                self.place = Place::Proxies;
                self.group.cluster = cluster_of(byte_at(words, 0));
            }
            Head::Proxies => {
                self.place = Place::Clients;
                self.group.proxies = byte_at(words, 0);
            }
            Head::Clients => {
                self.place = Place::Ticks;
                self.group.clients = byte_at(words, 0);
            }
            Head::Ticks => {
                self.ticks = number_at(words, 0);
                self.place = if self.version == 2 {
                    Place::Window
                } else {
                    Place::Between
                };
            }
            Head::Window => {
                self.place = Place::Between;
                self.group.window = byte_at(words, 0);
            }
        }
    }

    fn take_request(&mut self, alloc: Global, command: &Command) -> Result<(), NoMemory>
        requires valid { IsValidCommand command.now }
        requires few { self.old.requests < MAX_REQUESTS }
        ensures { OnOk result (self.new ≡ with_request self.old command.now) }
    {
        let wait = std::mem::replace(&mut self.wait, 0);
        self.block.push(new_request(alloc, wait, command)?)?;
        self.requests += 1;
        Ok(())
    }

    fn take_script(&mut self, alloc: Global) -> Result<(), NoMemory>
        ensures { OnOk result (self.new ≡ with_script self.old) }
    {
        let is_last = u64::from(self.scripts.len()) + 1 == u64::from(self.group.clients);
        let block = std::mem::replace(&mut self.block, RequestList::new(alloc));
        self.scripts.push(block)?;
        self.wait = 0;
        self.place = if is_last {
            Place::Mishaps
        } else {
            Place::Between
        };
        Ok(())
    }

    /// Takes a line in that has passed its tests.
    pub fn take(&mut self, alloc: Global, verb: Verb, words: WordList) -> Result<(), NoMemory>
        requires within { IsTrue (all_within (forms_of verb) words) }
        requires room { IsTrue (has_room_for_line self.old verb) }
        ensures { OnOk result (self.new ≡ with_words self.old verb words) }
    {
        match verb {
            Verb::Head(head) => self.take_head(head, words.as_slice()),
            Verb::Skew => self.skews.push(skew_of(words.as_slice()))?,
            Verb::Client => self.place = Place::Block,
            Verb::Ask(ask) => {
                let command = command_of(alloc, ask, words)?;
                self.take_request(alloc, &command)?;
            }
            Verb::Wait => self.wait = number_at(words.as_slice(), 0),
            Verb::End => self.take_script(alloc)?,
            Verb::Mishap(mishap) => self.faults.push(fault_of(mishap, words.as_slice()))?,
            Verb::Done => self.place = Place::Ended,
        }
        Ok(())
    }

    /// The scenario that has been read.
    pub fn into_scenario(self) -> Scenario
        ensures { result ≡ scenario_of self }
    {
        let Draft {
            place: _,
            version: _,
            group,
            ticks,
            skews,
            scripts,
            block: _,
            wait: _,
            requests: _,
            faults,
        } = self;
        Scenario {
            cluster: group.cluster,
            proxies: group.proxies,
            clients: group.clients,
            window: group.window,
            ticks,
            skews,
            scripts,
            faults,
        }
    }
}
