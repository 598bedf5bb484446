//! The state of a client, and its rules.

ghost use Rattle.std.specs.Prelude.{◌≡◌, ◌+◌, ◌-◌, ◌%◌, ◌<◌, ◌≤◌, ◌++◌, ◌∷◌, ◌==◌, [], map, length, OnOk, OnErr, IsTrue, IfSome, min, slice_get};
ghost use Rattle.std.specs.List.{AllByRecursion};
ghost use Rattle.std.specs.Option.{option_copied};
ghost use Rattle.nz_base.specs.Actor.{HasAddress};
ghost use Rattle.nz_base.specs.declared.actor.Actor.TheVariants as actors;
ghost use Rattle.nz_base.specs.declared.limits.TheConstants.{MAX_CLIENT, MAX_PROXIES, MAX_PROXY, MAX_WINDOW};
ghost use Rattle.nz_machine.specs.rules.Clients as clients;
ghost use Rattle.nz_machine.specs.rules.Clients.{first_client, if_due, after_opening, retries};
ghost use Rattle.nz_machine.specs.rules.Clients.{after_wait, request_again, without_attempt, after_acceptance};
ghost use Rattle.nz_machine.specs.rules.Step.{parcel};
ghost use Rattle.nz_client.specs.Models as models;
ghost use Rattle.nz_client.specs.Models.{ClientDoes, IsSendable, AreSendable, IsOfProxies, IsSameClient};

use nz_base::{Actor, NoMemory, RETRY_TICKS, Request, RequestList, TryCopy};
use nz_machine::{Attempt, Outbox};
use nz_msg::{AnswerBody, Message, RequestBody};
use std::alloc::Global;
use std::marker::Model;

/// The state of a client.
#[derive(Drop)]
pub struct ClientState {
    me: u8,
    proxies: u8,
    window: u8,
    script: RequestList,
    ticks: u32,
    sent: u32,
    accepted: u32,
    /// The open requests, in rising number.
    attempts: Vec<Attempt>,
    alloc: Global,
}

impl Model for ClientState {
    ghost use Rattle.std.specs.Prelude.{◌≤◌, length};
    ghost use Rattle.nz_client.specs.Models.{ClientModel, IsInTurn};

    ghost Value = { ClientModel };

    ghost view = { λ s. record {
      me = s.me;
      proxies = s.proxies;
      window = s.window;
      script = s.script;
      state = record { ticks = s.ticks; sent = s.sent; accepted = s.accepted; attempts = s.attempts.items };
    } };

    ghost invariant = { λ s. IsInTurn s.me s.proxies s.window s.script s.sent s.accepted s.attempts.items };
}

impl ClientState {
    /// A client in its first state, with its requests.
    pub fn new(alloc: Global, me: u8, proxies: u8, window: u8, script: RequestList) -> ClientState
        requires named { me ≤ MAX_CLIENT }
        requires least { 1 ≤ proxies }
        requires most { proxies ≤ MAX_PROXIES }
        requires narrow { window ≤ MAX_WINDOW }
        requires sendable { AreSendable script }
        ensures { result ≡ record { me = me; proxies = proxies; window = window; script = script; state = first_client } }
    {
        // A list is no longer than a u32 counts.
        let _ = script.len();
        ClientState {
            me,
            proxies,
            window,
            script,
            ticks: 0,
            sent: 0,
            accepted: 0,
            attempts: Vec::new(alloc),
            alloc,
        }
    }

    pub fn actor(&self) -> Actor
        ensures actor { result ≡ actors.Client self.now.me }
        ensures address { HasAddress result }
    {
        Actor::Client(self.me)
    }

    pub fn allocator(&self) -> Global {
        self.alloc
    }

    /// The least number of an open request, if one is.
    pub fn least_open(&self) -> Option<u32>
        ensures { result ≡ models.least_open self.now.state.attempts }
    {
        match self.attempts.as_slice() {
            [] => None,
            [first, ..] => Some(first.num),
        }
    }

    /// Whether the request of this number is open.
    pub fn is_open(&self, num: u32) -> bool
        ensures { result ≡ clients.is_open num self.now.state.attempts }
    {
        self.attempts.iter().any(|attempt| attempt.num == num)
    }

    /// How many requests were accepted.
    pub fn accepted(&self) -> u32
        ensures { result ≡ self.now.state.accepted }
    {
        self.accepted
    }

    /// How many ticks were counted.
    pub fn ticks(&self) -> u32
        ensures { result ≡ self.now.state.ticks }
    {
        self.ticks
    }

    /// Puts the request after all others of the script.
    pub fn append(&mut self, request: Request) -> Result<(), NoMemory>
        requires sendable { IsSendable request }
        ensures ok { OnOk result (self.new ≡ record self.old { script = self.old.script ++ request ∷ [] }) }
        ensures err { OnErr result (self.new ≡ self.old) }
    {
        self.script.push(request)?;
        // A list is no longer than a u32 counts.
        let _ = self.script.len();
        Ok(())
    }

    /// The request at this place of the script, if there is one.
    fn request_at(&self, place: u32) -> Option<&Request>
        ensures sendable { IfSome result (λ request. IsSendable request.now) }
        ensures value { option_copied result ≡ slice_get self.now.script place }
    {
        self.script.as_slice().get(place as usize)
    }

    /// Sends the request of this number, counted from 1, to a proxy.
    fn ask(
        &self,
        proxy: u8,
        num: u32,
        request: &Request,
        sends: &mut Outbox,
    ) -> Result<(), NoMemory>
        requires proxy { proxy ≤ MAX_PROXY }
        requires request { IsSendable request.now }
        ensures { OnOk result (sends.new ≡ sends.old ++ map (parcel (actors.Client self.now.me)) (clients.ask proxy num request.now ∷ [])) }
    {
        let command = request.command.copy(self.alloc)?;
        let message = Message::Request(RequestBody { num, command });
        let to = Actor::Proxy(proxy);
        sends.send(self.actor(), to, &message)
    }

    /// The next request, if it may be sent now.
    fn due_request(&self) -> Option<&Request>
        ensures sendable { IfSome result (λ request. IsSendable request.now) }
        ensures value { option_copied result ≡ if_due self.now.state.ticks (slice_get self.now.script self.now.state.sent) }
    {
        match self.request_at(self.sent) {
            Some(request) if request.wait <= self.ticks => Some(request),
            _ => None,
        }
    }

    /// The proxy to which a request goes first.
    fn own_proxy(&self) -> u8
        ensures own { result ≡ self.now.me % self.now.proxies }
        ensures named { result ≤ MAX_PROXY }
    {
        let proxies = self.proxies;
        self.me % proxies
    }

    /// Counts the next request as sent, to the client's own proxy.
    fn open_request(&mut self) -> Result<(), NoMemory>
        requires free { length self.old.state.attempts < self.old.window }
        requires there { self.old.state.sent < length self.old.script }
        ensures same { IsSameClient self.old self.new }
        ensures state { OnOk result (self.new ≡ record self.old {
          state = record self.old.state {
            sent = self.old.state.sent + 1;
            attempts = self.old.state.attempts
                ++ record { num = self.old.state.sent + 1; proxy = self.old.me % self.old.proxies; since = 0 } ∷ [];
          };
        }) }
    {
        let attempt = Attempt {
            num: self.sent + 1,
            proxy: self.me % self.proxies,
            since: 0,
        };
        self.attempts.push(attempt)?;
        self.sent += 1;
        Ok(())
    }

    /// The next request is opened if it is due.
    fn open_next(&mut self, sends: &mut Outbox) -> Result<(), NoMemory>
        requires { length self.old.state.attempts < self.old.window }
        ensures same { IsSameClient self.old self.new }
        ensures rule { let s = self.old in OnOk result (ClientDoes s self.new sends.old sends.new (clients.open_next s.proxies s.me s.script s.state)) }
    {
        match self.due_request() {
            None => Ok(()),
            Some(request) => {
                let proxy = self.own_proxy();
                self.ask(proxy, self.sent + 1, request, sends)?;
                self.open_request()
            }
        }
    }

    /// How many requests more may be open.
    fn free_places(&self) -> u8
        ensures free { result ≡ self.now.window - length self.now.state.attempts }
        ensures few { length self.now.state.attempts ≤ self.now.window }
    {
        self.window - self.attempts.len() as u8
    }

    /// Each free place of the window takes the next request, if it is due.
    fn fill_window(&mut self, sends: &mut Outbox) -> Result<(), NoMemory>
        ensures same { IsSameClient self.old self.new }
        ensures rule { let s = self.old in
            OnOk result (ClientDoes s self.new sends.old sends.new
            (clients.fill_window s.window s.proxies s.me s.script s.state)) }
    {
        for _ in 0..self.free_places() {
            self.open_next(sends)?;
        }
        Ok(())
    }

    /// Sends the request of this number again.
    fn ask_again(&self, proxy: u8, num: u32, sends: &mut Outbox) -> Result<(), NoMemory>
        requires { proxy ≤ MAX_PROXY }
        ensures { OnOk result (sends.new ≡ sends.old
            ++ map (parcel (actors.Client self.now.me)) (request_again proxy num (slice_get self.now.script (num - 1)))) }
    {
        match self.request_at(num.saturating_sub(1)) {
            None => Ok(()),
            Some(request) => self.ask(proxy, num, request, sends),
        }
    }

    /// Sends an open request again where it has waited long enough.
    fn retry(&self, attempt: Attempt, sends: &mut Outbox) -> Result<(), NoMemory>
        requires { IsOfProxies self.now.proxies attempt }
        ensures { OnOk result (sends.new ≡ sends.old ++ map (parcel (actors.Client self.now.me)) (clients.retry self.now.proxies self.now.script attempt)) }
    {
        if is_overdue(attempt) {
            let proxy = next_proxy(self.proxies, attempt.proxy);
            self.ask_again(proxy, attempt.num, sends)
        } else {
            Ok(())
        }
    }

    /// Sends again what has waited long enough, in rising number.
    fn retry_all(&self, sends: &mut Outbox) -> Result<(), NoMemory>
        ensures { OnOk result (sends.new ≡ sends.old
            ++ map (parcel (actors.Client self.now.me)) (retries self.now.proxies self.now.script self.now.state.attempts)) }
    {
        for attempt in &self.attempts {
            self.retry(*attempt, sends)?;
        }
        Ok(())
    }

    /// The count of ticks rises, and each open request waits.
    fn wait_all(&mut self)
        ensures { self.new ≡ record self.old { state = after_wait self.old.proxies self.old.state } }
    {
        let proxies = self.proxies;
        wait_each(self.attempts.as_mut_slice(), proxies);
        self.ticks = self.ticks.saturating_add(1);
    }

    /// The rule for a tick.
    #[tactic(auto, unfolding(nz_machine::specs::rules::Clients::wait_rule))]
    pub fn wait_rule(&mut self, sends: &mut Outbox) -> Result<(), NoMemory>
        ensures same { IsSameClient self.old self.new }
        ensures rule { let s = self.old in
            OnOk result (ClientDoes s self.new sends.old sends.new
            (clients.wait_rule s.window s.proxies s.me s.script s.state)) }
    {
        self.retry_all(sends)?;
        self.wait_all();
        self.fill_window(sends)
    }

    /// The request of this number is accepted, and no longer open.
    fn accept(&mut self, num: u32)
        requires { IsTrue (clients.is_open num self.old.state.attempts) }
        ensures { self.new ≡ record self.old { state = after_acceptance num self.old.state } }
    {
        drop_attempt(&mut self.attempts, num);
        self.accepted += 1;
    }

    /// The rule for an answer of a proxy.
    #[tactic(auto, unfolding(nz_machine::specs::rules::Clients::accept_rule))]
    pub fn accept_rule(&mut self, body: &AnswerBody, sends: &mut Outbox) -> Result<(), NoMemory>
        ensures same { IsSameClient self.old self.new }
        ensures rule { let s = self.old in
            OnOk result (ClientDoes s self.new sends.old sends.new
            (clients.accept_rule s.window s.proxies s.me s.script s.state body.now)) }
    {
        if !self.is_open(body.num) {
            return Ok(());
        }
        self.accept(body.num);
        self.fill_window(sends)
    }
}

/// The proxy after this one.
fn next_proxy(proxies: u8, proxy: u8) -> u8
    requires below { proxy < proxies }
    requires most { proxies ≤ MAX_PROXIES }
    ensures next { result ≡ (proxy + 1) % proxies }
    ensures known { result < proxies }
{
    (proxy + 1) % proxies
}

/// Whether the open request has waited long enough at the next tick.
fn is_overdue(attempt: Attempt) -> bool
    requires { attempt.since < RETRY_TICKS }
    ensures { result ≡ clients.is_overdue attempt }
{
    attempt.since + 1 == RETRY_TICKS
}

/// An open request, when it has waited one tick more.
fn attempt_after_wait(attempt: Attempt, proxies: u8) -> Attempt
    requires most { proxies ≤ MAX_PROXIES }
    requires of_proxies { IsOfProxies proxies attempt }
    ensures waited { result ≡ clients.attempt_after_wait proxies attempt }
    ensures of_proxies { IsOfProxies proxies result }
{
    let num = attempt.num;
    if is_overdue(attempt) {
        let proxy = next_proxy(proxies, attempt.proxy);
        Attempt {
            num,
            proxy,
            since: 0,
        }
    } else {
        Attempt {
            num,
            proxy: attempt.proxy,
            since: attempt.since + 1,
        }
    }
}

/// Each open request waits one tick more.
fn wait_each(attempts: &mut [Attempt], proxies: u8)
    requires most { proxies ≤ MAX_PROXIES }
    requires of_proxies { AllByRecursion (IsOfProxies proxies) attempts.old }
    ensures waited { attempts.new ≡ map (clients.attempt_after_wait proxies) attempts.old }
    ensures of_proxies { AllByRecursion (IsOfProxies proxies) attempts.new }
{
    for attempt in attempts.iter_mut() {
        *attempt = attempt_after_wait(*attempt, proxies);
    }
}

fn drop_attempt(attempts: &mut Vec<Attempt>, num: u32)
    ensures { attempts.new.items ≡ without_attempt num attempts.old.items }
{
    attempts.retain(|attempt| attempt.num != num);
}
