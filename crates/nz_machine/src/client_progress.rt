//! The events of clients, read off the records of a run.
ghost use Rattle.std.specs.Prelude.{◌≡◌, ◌<◌, ◌∷◌, ◌++◌, [], ℕ, List as Listed, length, map, IfOk, OnOk, IfSome, IfNone, ◌==◌, not, filter};
ghost use Rattle.std.specs.List.{list_any};
ghost use Rattle.nz_base.specs.declared.actor.Actor.TheVariants as actors;
ghost use Rattle.nz_msg.specs.declared.message.Message.TheVariants as messages;
ghost use Rattle.nz_machine.specs.runs.Events.{id_at, script_command, client_events};
ghost use Rattle.nz_machine.specs.runs.Schedule.{group_of};
ghost use Rattle.nz_machine.specs.rules.Step.{script_of};
ghost use Rattle.nz_machine.specs.journals.ClientProgress as client_progress;
ghost use Rattle.nz_machine.specs.journals.ClientProgress.{first_progress, AreAfter, IsNoneOf, answer_in, answer_read, answer_of};
ghost use Rattle.nz_machine.specs.journals.ClientProgress.{with_answer, acceptance, new_in, with_num, new_among, with_all, after_client_record};
ghost use Rattle.nz_machine.specs.runs.World.{World};
ghost use Rattle.nz_machine.specs.declared.event.Record.{Record as RecordModel};

use super::client_event::ClientEvent;
use super::event::{Event, Record, SharedParcel};
use super::receiving::heard;
use nz_base::{Actor, Blob, Id, List, NoMemory, Request, Scenario, TryCopy};
use nz_msg::{AnswerBody, DecodeRefusal, Envelope, Message, decode};
use std::alloc::Global;
use std::marker::Model;

/// How far a client is: the number of the request that it sent last, or 0, and the numbers of the open ones.
#[derive(Debug, Drop)]
pub struct Progress {
    sent: u32,
    waiting: Vec<u32>,
}

impl Model for Progress {
    ghost use Rattle.nz_machine.specs.journals.ClientProgress.{Progress as ProgressModel};

    ghost Value = { ProgressModel };

    ghost view = { λ p. record { sent = p.sent; waiting = p.waiting.items } };
}

/// How far each client of a run is.
#[derive(Debug, Drop)]
pub struct Clients {
    progress: Vec<Progress>,
}

impl Model for Clients {
    ghost use Rattle.std.specs.Prelude.{List};
    ghost use Rattle.nz_machine.specs.journals.ClientProgress.{Progress as ProgressModel};

    ghost Value = { List ProgressModel };

    ghost view = { λ c. c.progress.items };
}

fn id_of(client: u8, num: u32) -> Id
    ensures { result ≡ id_at client num }
{
    Id {
        client: u32::from(client),
        num,
    }
}

impl Progress {
    /// Before the first record.
    fn new(alloc: Global) -> Progress
        ensures { result ≡ first_progress }
    {
        Progress {
            sent: 0,
            waiting: Vec::new(alloc),
        }
    }

    /// The answer that was heard, where it is to an open request.
    fn answer_in(&self, envelope: Option<Envelope>) -> Option<AnswerBody>
        ensures { result ≡ answer_read self.now envelope }
    {
        let Some(envelope) = envelope else {
            return None;
        };
        let Actor::Proxy(_) = envelope.from else {
            return None;
        };
        match envelope.message {
            Message::Answer(body) => self.if_waiting(body),
            _ => None,
        }
    }

    /// The answer, where it is to an open request.
    fn if_waiting(&self, body: AnswerBody) -> Option<AnswerBody>
        ensures { (q : ℕ) → result ≡ answer_in self.now (actors.Proxy q) (messages.Answer body) }
    {
        if self.is_waiting(body.num) {
            Some(body)
        } else {
            None
        }
    }

    fn is_waiting(&self, num: u32) -> bool
        ensures { result ≡ list_any (λ n. n == num) self.now.waiting }
    {
        self.waiting.iter().any(|waiting| *waiting == num)
    }

    /// The client accepts the answer, if there is one. Its request is no longer open.
    fn take_answer(
        &mut self,
        client: u8,
        answer: Option<AnswerBody>,
        events: &mut List<ClientEvent>,
    ) -> Result<(), NoMemory>
        ensures after { OnOk result (self.new ≡ with_answer self.old answer) }
        ensures event { OnOk result (events.new ≡ events.old ++ acceptance client answer) }
    {
        let Some(AnswerBody { num, answer, path }) = answer else {
            return Ok(());
        };
        drop_num(&mut self.waiting, num);
        events.push(ClientEvent::Accepted {
            id: id_of(client, num),
            answer,
            path,
        })
    }

    /// A request with this number was sent, which may be new.
    fn note_num(
        &mut self,
        alloc: Global,
        client: u8,
        script: &[Request],
        num: Option<u32>,
        events: &mut List<ClientEvent>,
    ) -> Result<(), NoMemory>
        ensures after { OnOk result (self.new ≡ with_num self.old num) }
        ensures new { OnOk result (events.new ≡ events.old ++ new_in client script.now self.old num) }
    {
        let Some(num) = num else {
            return Ok(());
        };
        if num <= self.sent {
            return Ok(());
        }
        events.push(ClientEvent::Sent {
            id: id_of(client, num),
            command: command_at(alloc, script, num)?,
        })?;
        self.waiting.push(num)?;
        self.sent = num;
        Ok(())
    }

    /// Adds the new requests among those that were sent.
    fn note_sends(
        &mut self,
        alloc: Global,
        client: u8,
        script: &[Request],
        sends: &[SharedParcel],
        events: &mut List<ClientEvent>,
    ) -> Result<(), NoMemory>
        ensures after { OnOk result (self.new ≡ with_all self.old (map client_progress.num_of sends.now)) }
        ensures new { OnOk result (events.new ≡ events.old ++ new_among client script.now self.old (map client_progress.num_of sends.now)) }
    {
        for parcel in sends {
            let num = num_of(alloc, parcel)?;
            self.note_num(alloc, client, script, num, events)?;
        }
        Ok(())
    }
}

/// The script of the client, no requests where there is none.
fn script_at(scenario: &Scenario, client: u8) -> &[Request]
    ensures { result.now ≡ script_of (group_of scenario.now) client }
{
    match scenario.scripts.as_slice().get(client as usize) {
        None => &[],
        Some(script) => script.as_slice(),
    }
}

/// The command of the client's request with this number, no bytes where there is none.
fn command_at(alloc: Global, script: &[Request], num: u32) -> Result<Blob, NoMemory>
    ensures { IfOk result (λ command. command ≡ script_command script.now num) }
{
    match script.get(num.saturating_sub(1) as usize) {
        None => Ok(Blob::from_vec(Vec::new(alloc))),
        Some(request) => request.command.copy(alloc),
    }
}

fn drop_num(nums: &mut Vec<u32>, num: u32)
    ensures { nums.new.items ≡ filter (λ n. not (n == num)) nums.old.items }
{
    nums.retain(|other| *other != num);
}

/// The number of the request that a parcel has, if it has one.
#[tactic(auto, unfolding(crate::specs::journals::ClientProgress::num_of))]
fn num_of(alloc: Global, parcel: &SharedParcel) -> Result<Option<u32>, NoMemory>
    ensures { IfOk result (λ num. num ≡ client_progress.num_of parcel.now) }
{
    match decode(alloc, &parcel.get().frame) {
        Err(DecodeRefusal::NoMemory) => Err(NoMemory),
        Err(_) => Ok(None),
        Ok(envelope) => match envelope.message {
            Message::Request(body) => Ok(Some(body.num)),
            _ => Ok(None),
        },
    }
}

fn answer_of(
    alloc: Global,
    client: u8,
    progress: &Progress,
    event: &Event,
) -> Result<Option<AnswerBody>, NoMemory>
    ensures { IfOk result (λ answer. answer ≡ answer_of client progress.now event.now) }
{
    match event {
        Event::Deliver(parcel) => {
            let envelope = heard(alloc, Actor::Client(client), parcel.get())?;
            Ok(progress.answer_in(envelope))
        }
        Event::Cut(..) | Event::Tick(_) | Event::Alarm | Event::Crash | Event::Restart(_) => {
            Ok(None)
        }
    }
}

/// The events of a record of the client.
fn read(
    alloc: Global,
    client: u8,
    script: &[Request],
    progress: &mut Progress,
    next: &Record,
) -> Result<List<ClientEvent>, NoMemory>
    ensures events { IfOk result (λ events. events ≡ (after_client_record client script.now progress.old next.now.event next.now.sends).0) }
    ensures after { OnOk result (progress.new ≡ (after_client_record client script.now progress.old next.now.event next.now.sends).1) }
{
    let mut events = List::new(alloc);
    let answer = answer_of(alloc, client, progress, &next.event)?;
    progress.take_answer(client, answer, &mut events)?;
    progress.note_sends(alloc, client, script, next.sends.as_slice(), &mut events)?;
    Ok(events)
}

impl Clients {
    /// Before the first record.
    pub fn new(alloc: Global, scenario: &Scenario) -> Result<Clients, NoMemory>
        ensures { IfOk result (λ clients. AreAfter (group_of scenario.now) [] clients) }
    {
        let mut progress = Vec::new(alloc);
        for _ in 0..scenario.scripts.len() {
            progress.push(Progress::new(alloc))?;
        }
        Ok(Clients { progress })
    }

    /// The number of the actor, where it is one of these clients.
    fn number_of(&self, actor: Actor) -> Option<u8>
        ensures client { IfSome result (λ client. actor ≡ actors.Client client) }
        ensures there { IfSome result (λ client. client < length self.now) }
        ensures other { IfNone result (IsNoneOf (length self.now) actor) }
    {
        match actor {
            Actor::Client(client) => {
                if (client as usize) < self.progress.len() {
                    Some(client)
                } else {
                    None
                }
            }
            Actor::Replica(_) | Actor::Proxy(_) => None,
        }
    }

    /// The events of the next record, which is of this client.
    fn read_own(
        &mut self,
        alloc: Global,
        scenario: &Scenario,
        client: u8,
        next: &Record,
    ) -> Result<List<ClientEvent>, NoMemory>
        requires actor { next.now.actor ≡ actors.Client client }
        requires there { client < length self.old }
        ensures events { let g = group_of scenario.now in IfOk result (λ events. (J : Listed RecordModel) → World g (next.now ∷ J)
            → AreAfter g J self.old → events ≡ client_events g next.now.actor next.now J) }
        ensures after { let g = group_of scenario.now in OnOk result ((J : Listed RecordModel) → World g (next.now ∷ J)
            → AreAfter g J self.old → AreAfter g (next.now ∷ J) self.new) }
    {
        let script = script_at(scenario, client);
        let place = client as usize;
        read(alloc, client, script, &mut self.progress[place], next)
    }

    /// The events of the next record of a run of the scenario, of which the earlier ones were read.
    pub fn read(
        &mut self,
        alloc: Global,
        scenario: &Scenario,
        next: &Record,
    ) -> Result<List<ClientEvent>, NoMemory>
        ensures events { let g = group_of scenario.now in IfOk result (λ events. (J : Listed RecordModel) → World g (next.now ∷ J)
            → AreAfter g J self.old → events ≡ client_events g next.now.actor next.now J) }
        ensures after { let g = group_of scenario.now in OnOk result ((J : Listed RecordModel) → World g (next.now ∷ J)
            → AreAfter g J self.old → AreAfter g (next.now ∷ J) self.new) }
    {
        match self.number_of(next.actor) {
            Some(client) => self.read_own(alloc, scenario, client, next),
            None => Ok(List::new(alloc)),
        }
    }
}
