//! The state of a proxy, and its rules.

ghost use Rattle.std.specs.Prelude.{◌≡◌, ◌+◌, ◌<◌, ◌≤◌, ◌++◌, ◌∷◌, List, [], map, length, OnOk, IfOk, IsSome, IfSome, true, false};
ghost use Rattle.std.specs.Option.{option_map};
ghost use Rattle.nz_base.specs.Actor.{HasAddress};
ghost use Rattle.nz_base.specs.Cluster.{replica_count};
ghost use Rattle.nz_base.specs.declared.actor.Actor.TheVariants as actors;
ghost use Rattle.nz_base.specs.declared.limits.TheConstants.{MAX_CLIENT, MAX_DEADLINE, MAX_PROXY};
ghost use Rattle.nz_msg.specs.Fields as fields;
ghost use Rattle.nz_msg.specs.Messages as messages;
ghost use Rattle.nz_msg.specs.Messages.{Fits};
ghost use Rattle.nz_machine.specs.rules.State.{Standing as StandingModel, Open as OpenModel};
ghost use Rattle.nz_machine.specs.rules.Proxies as proxies;
ghost use Rattle.nz_machine.specs.rules.Proxies.{first_proxy, with_standing, standing_of, answer_to_client, timed_to};
ghost use Rattle.nz_machine.specs.rules.Proxies.{timed_to_all, after_replica_reply, crashed_proxy, restarted_proxy};
ghost use Rattle.nz_machine.specs.rules.Replicas.{numbers_below};
ghost use Rattle.nz_machine.specs.rules.Step.{parcel};
ghost use Rattle.nz_quorum.specs.Tallies.{IsOfCluster, replica_of};
ghost use Rattle.nz_window.specs.Samples.{bound_of, with_sample};
ghost use Rattle.nz_proxy.specs.Standings.{known_standing, IsFitStanding, HasFitAnswer, answers_to_client};
ghost use Rattle.nz_proxy.specs.Sending.{to_each};
ghost use Rattle.nz_proxy.specs.Models.{ProxyDoes, IsSameProxy};

use crate::standing::Standing;
use indexmap::IndexMap;
use nz_base::{Actor, Blob, Cluster, Id, MARGIN, MAX_CLOCK, NoMemory};
use nz_machine::{Outbox, Reply, copy_answer};
use nz_msg::{AnswerBody, Message, Path, RequestBody, TimedBody};
use nz_quorum::Tally;
use nz_store::Answer;
use nz_window::Window;
use std::alloc::Global;
use std::marker::Model;

/// The state of a proxy.
#[derive(Drop)]
pub struct ProxyState {
    cluster: Cluster,
    me: u8,
    is_down: bool,
    clock: u64,
    window: Window,
    standings: IndexMap<Id, Standing>,
    alloc: Global,
}

impl Model for ProxyState {
    ghost use Rattle.nz_proxy.specs.Standings.{known_standings};
    ghost use Rattle.nz_proxy.specs.Models.{ProxyModel, IsKeptProxy};

    ghost Value = { ProxyModel };

    ghost view = { λ s. record {
      f = s.cluster;
      me = s.me;
      state = record { is_down = s.is_down; clock = s.clock; samples = s.window; standings = known_standings s.standings.entries };
    } };

    ghost invariant = { λ s. IsKeptProxy s.cluster s.me s.clock s.window s.standings.entries };
}

impl ProxyState {
    /// A proxy in its first state.
    pub fn new(alloc: Global, cluster: Cluster, me: u8) -> ProxyState
        requires { me ≤ MAX_PROXY }
        ensures { result ≡ record { f = cluster; me = me; state = first_proxy cluster } }
    {
        ProxyState {
            cluster,
            me,
            is_down: false,
            clock: 0,
            window: Window::new(cluster.n()),
            standings: IndexMap::new(alloc),
            alloc,
        }
    }

    pub fn actor(&self) -> Actor
        ensures actor { result ≡ actors.Proxy self.now.me }
        ensures address { HasAddress result }
    {
        Actor::Proxy(self.me)
    }

    pub fn allocator(&self) -> Global {
        self.alloc
    }

    pub fn cluster(&self) -> Cluster
        ensures { result ≡ self.now.f }
    {
        self.cluster
    }

    pub fn is_down(&self) -> bool
        ensures { result ≡ self.now.state.is_down }
    {
        self.is_down
    }

    /// Forgets all, and is down.
    pub fn crash(&mut self)
        ensures { self.new ≡ record self.old { state = crashed_proxy self.old.f } }
    {
        *self = ProxyState::new(self.alloc, self.cluster, self.me);
        self.is_down = true;
    }

    /// Begins anew, if it is down.
    pub fn restart(&mut self)
        ensures { self.new ≡ record self.old { state = restarted_proxy self.old.f self.old.state } }
    {
        if self.is_down {
            *self = ProxyState::new(self.alloc, self.cluster, self.me);
        }
    }

    /// What is known of a request.
    fn standing(&self, id: Id) -> Option<&Standing>
        ensures value { option_map {U = StandingModel} (λ s. known_standing s.now) result ≡ standing_of self.now.state id }
        ensures fit { IfSome result (λ s. IsFitStanding self.now.f s.now) }
    {
        self.standings.get(&id)
    }

    /// The deadline of a request that is stamped now.
    fn deadline(&self) -> u64
        ensures value { result ≡ self.now.state.clock + bound_of self.now.state.samples + MARGIN }
        ensures named { result ≤ MAX_DEADLINE }
    {
        self.clock + u64::from(self.window.bound()) + MARGIN
    }

    fn set_standing(&mut self, id: Id, standing: Standing) -> Result<(), NoMemory>
        requires client { id.client ≤ MAX_CLIENT }
        requires fit { IsFitStanding self.old.f standing }
        ensures same { IsSameProxy self.old self.new }
        ensures state { OnOk result (self.new ≡ record self.old { state = with_standing self.old.state id (known_standing standing) }) }
    {
        self.standings.insert(id, standing)?;
        Ok(())
    }

    fn sample(&mut self, replica: u8, delay: u32)
        requires { replica < replica_count self.old.f }
        ensures { self.new ≡ record self.old { state = record self.old.state { samples = with_sample self.old.state.samples replica delay } } }
    {
        self.window.sample(replica, delay);
    }

    /// Notes a reply, if its request is open. Where the replies decide now, gives the answer for the client.
    fn note(&mut self, id: Id, reply: Reply) -> Result<Option<(Answer, Path)>, NoMemory>
        requires reply { IsOfCluster self.old.f reply }
        requires answer { HasFitAnswer reply }
        ensures same { IsSameProxy self.old self.new }
        ensures state { IfOk result (λ given. after_replica_reply self.old.f self.old.state id reply
            (standing_of self.old.state id) ≡ (self.new.state, answers_to_client id given)) }
        ensures client { IfOk result (λ given. IsSome given → id.client ≤ MAX_CLIENT) }
        ensures fit { IfOk result (λ given. IfSome given (λ t. fields.answer.fits t.0)) }
    {
        let alloc = self.alloc;
        match self.standings.get_mut(&id) {
            None => Ok(None),
            Some(standing) => standing.note(alloc, reply),
        }
    }

    fn send_answer(
        &self,
        id: Id,
        answer: Answer,
        path: Path,
        sends: &mut Outbox,
    ) -> Result<(), NoMemory>
        requires client { id.client ≤ MAX_CLIENT }
        requires answer { fields.answer.fits answer }
        ensures { OnOk result (sends.new ≡ sends.old ++ map (parcel (actors.Proxy self.now.me)) (answer_to_client id answer path ∷ [])) }
    {
        let message = Message::Answer(AnswerBody {
            num: id.num,
            answer,
            path,
        });
        let to = Actor::Client(id.client as u8);
        sends.send(self.actor(), to, &message)
    }

    fn timed(&self, id: Id, command: Blob) -> TimedBody
        requires { fields.command.fits command }
        ensures value { result ≡ record {
          sent = self.now.state.clock;
          deadline = self.now.state.clock + bound_of self.now.state.samples + MARGIN;
          id = id;
          command = command;
        } }
        ensures fit { messages.timed.fits result }
    {
        TimedBody {
            sent: self.clock,
            deadline: self.deadline(),
            id,
            command,
        }
    }

    /// Sends the message to each replica.
    fn send_to_replicas(&self, message: &Message, sends: &mut Outbox) -> Result<(), NoMemory>
        requires { Fits message.now }
        ensures { OnOk result (sends.new ≡ sends.old
            ++ map (parcel (actors.Proxy self.now.me)) (to_each message.now (numbers_below (replica_count self.now.f)))) }
    {
        let cluster = self.cluster();
        let body = sends.write_body(message)?;
        for replica in 0..cluster.n() {
            let to = Actor::Replica(replica);
            sends.send_written(self.actor(), to, message, &body)?;
        }
        Ok(())
    }

    /// Sends the request to each replica, stamped with its deadline.
    fn send_to_all(&self, id: Id, command: Blob, sends: &mut Outbox) -> Result<(), NoMemory>
        requires { fields.command.fits command }
        ensures { OnOk result (sends.new ≡ sends.old ++ map (parcel (actors.Proxy self.now.me)) (timed_to_all self.now.f self.now.state id command)) }
    {
        let message = Message::Timed(self.timed(id, command));
        self.send_to_replicas(&message, sends)
    }

    /// The rule for a request of a client.
    #[tactic(auto, unfolding(nz_machine::specs::rules::Proxies::stamp_rule))]
    pub fn stamp_rule(
        &mut self,
        client: u8,
        body: RequestBody,
        sends: &mut Outbox,
    ) -> Result<(), NoMemory>
        requires client { client ≤ MAX_CLIENT }
        requires body { messages.request.fits body }
        ensures same { IsSameProxy self.old self.new }
        ensures rule { let s = self.old in OnOk result (ProxyDoes s self.new sends.old sends.new (proxies.stamp_rule s.f s.state client body)) }
    {
        let id = Id {
            client: u32::from(client),
            num: body.num,
        };
        let alloc = self.alloc;
        match self.standing(id) {
            Some(Standing::Decided { answer, path }) => {
                let answer = copy_answer(alloc, answer)?;
                self.send_answer(id, answer, *path, sends)
            }
            Some(Standing::Open(_)) => self.send_to_all(id, body.command, sends),
            None => {
                self.send_to_all(id, body.command, sends)?;
                let tally = Tally::new(alloc, self.cluster);
                self.set_standing(id, Standing::Open(tally))
            }
        }
    }

    /// The rule for a reply of a replica to the request, whose timed message was under way for the delay.
    #[tactic(auto, unfolding(nz_machine::specs::rules::Proxies::reply_rule))]
    pub fn reply_rule(
        &mut self,
        replica: u8,
        id: Id,
        delay: u32,
        reply: Reply,
        sends: &mut Outbox,
    ) -> Result<(), NoMemory>
        requires replica { replica < replica_count self.old.f }
        requires reply { IsOfCluster self.old.f reply }
        requires answer { HasFitAnswer reply }
        ensures same { IsSameProxy self.old self.new }
        ensures rule { let s = self.old in OnOk result (ProxyDoes s self.new sends.old sends.new (proxies.reply_rule s.f s.state replica id delay reply)) }
    {
        self.sample(replica, delay);
        match self.note(id, reply)? {
            None => Ok(()),
            Some((answer, path)) => self.send_answer(id, answer, path, sends),
        }
    }

    /// The rule for a tick.
    #[tactic(auto, unfolding(nz_machine::specs::rules::Proxies::clock_rule))]
    pub fn clock_rule(&mut self, clock: u64)
        ensures { self.new ≡ record self.old { state = proxies.clock_rule self.old.state clock } }
    {
        self.clock = clock.min(MAX_CLOCK);
    }
}
