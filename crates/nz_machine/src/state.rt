//! The state of a replica.

ghost use Rattle.std.specs.Prelude.{◌≡◌, ◌<◌, ◌≤◌, ◌==◌, ◌+◌, ◌∷◌, ◌++◌, [], List, length, IsTrue, IsFalse, IfOk, IfSome, IfNone, OnOk, OnErr};
ghost use Rattle.std.specs.Map.{lookup};
ghost use Rattle.nz_base.specs.Actor.{HasAddress};
ghost use Rattle.nz_base.specs.Cluster.{replica_count, leader_of};
ghost use Rattle.nz_base.specs.Key.{id_eq, id_of};
ghost use Rattle.nz_base.specs.Log.{keys_of, has_id, is_above_last};
ghost use Rattle.nz_base.specs.declared.actor.Actor.TheVariants as actors;
ghost use Rattle.nz_base.specs.declared.limits.TheConstants.{MAX_PROXY};
ghost use Rattle.nz_base.specs.declared.key.Entry.{Entry as EntryModel};
ghost use Rattle.nz_msg.specs.Fields as fields;
ghost use Rattle.nz_machine.specs.declared.data.Phase.TheVariants.{Vectors};
ghost use Rattle.nz_machine.specs.rules.Facts.{FitsEntry, HasFacts};
ghost use Rattle.nz_machine.specs.rules.Parts.{model_of, without_waiting};
ghost use Rattle.nz_machine.specs.rules.Replicas as replicas;
ghost use Rattle.nz_machine.specs.rules.Replicas.{first_replica, crashed_replica, is_normal, is_changing, is_up, is_rejoining, answer_at};
ghost use Rattle.nz_machine.specs.rules.Requests.{with_origin, to_early, to_late};
ghost use Rattle.nz_machine.specs.rules.Releases.{at_clock, after_release, first_may};

mod beginning;
mod messages;
mod rejoining;
mod sync;
mod viewing;

use super::answers::copy_answer;
use super::buffers::{take_in, vector_fits};
use super::data::{CollectedReport, Origin, Phase, Rejoin, Status};
use super::held::Held;
use indexmap::IndexMap;
use nz_base::{Actor, Cluster, Entry, Id, List, MAX_CLOCK, MAX_DELAY, MAX_ENTRIES, NoMemory};
use nz_buffers::{Early, Late};
use nz_cv::CrashVector;
use nz_log::HashedLog;
use nz_msg::TimedBody;
use nz_store::{Answer, Store};
use std::alloc::Global;
use std::marker::Model;

/// The parts of a replica's state.
#[derive(Drop)]
pub struct Parts {
    pub cluster: Cluster,
    pub me: u8,
    pub status: Status,
    pub clock: u64,
    pub view: u64,
    /// The last view in which the replica was in normal operation.
    pub last: u64,
    pub held: Held,
    pub commit: u32,
    pub results: Vec<Answer>,
    /// The store after the log, at a leader.
    pub store: Store,
    pub vector: CrashVector,
    pub origin: IndexMap<Id, Origin>,
    pub ack: Vec<u32>,
    /// Ticks since the replica heard from its leader.
    pub quiet: u8,
    /// Ticks since it last began to wait for others.
    pub since: u8,
    /// What the leader of a view collects to begin it.
    pub reports: Vec<CollectedReport>,
    pub rejoin: Rejoin,
    pub alloc: Global,
}

/// A rejoin that has not begun.
fn first_rejoin(alloc: Global) -> Rejoin
    ensures { result ≡ record { nonce = 0; phase = Vectors; claim = 0; wanted = 0; tellers = []; tells = [] } }
{
    Rejoin {
        nonce: 0,
        phase: Phase::Vectors,
        claim: 0,
        wanted: 0,
        tellers: List::new(alloc),
        tells: List::new(alloc),
    }
}

/// Forgets the entries that wait, where requests came from, and what was reported or collected.
fn forget_waiting(parts: &mut Parts)
    requires { length parts.old.ack.items ≡ replica_count parts.old.cluster }
    ensures model { model_of parts.new ≡ without_waiting (model_of parts.old) }
    ensures cluster { parts.new.cluster ≡ parts.old.cluster }
{
    parts.held.early = Early::new(parts.alloc);
    parts.held.late = Late::new(parts.alloc);
    parts.origin = IndexMap::new(parts.alloc);
    parts.reports = Vec::new(parts.alloc);
    parts.ack.as_mut_slice().fill(0);
}

/// Forgets all, where want of memory left the parts half made.
fn forget(parts: &mut Parts)
    requires { length parts.old.ack.items ≡ replica_count parts.old.cluster }
    ensures { model_of parts.new ≡ record { f = parts.old.cluster; me = parts.old.me; state = crashed_replica parts.old.cluster } }
{
    forget_waiting(parts);
    let alloc = parts.alloc;
    let cluster = parts.cluster;
    // f is from 1 to MAX_F, so there is a vector of this size.
    let _f = cluster.f();
    parts.status = Status::Down;
    parts.clock = 0;
    parts.view = 0;
    parts.last = 0;
    parts.held.log = HashedLog::new(alloc);
    parts.commit = 0;
    parts.results = Vec::new(alloc);
    parts.store = Store::new(alloc);
    parts.vector = CrashVector::zero(cluster.n());
    parts.quiet = 0;
    parts.since = 0;
    parts.rejoin = first_rejoin(alloc);
}

/// The state of a replica. A clause sees its cluster, its number and its data; that the data has the
/// facts of every replica is kept by the type.
#[derive(Drop)]
pub struct ReplicaState {
    parts: Parts,
}

impl Model for ReplicaState {
    ghost use Rattle.nz_machine.specs.rules.Facts.{ReplicaModel};
    ghost use Rattle.nz_machine.specs.rules.Parts.{ArePartsKept, model_of};

    ghost Value = { ReplicaModel };

    ghost view = { λ s. model_of s.parts };

    ghost invariant = { λ s. ArePartsKept s.parts };
}

impl ReplicaState {
    /// A replica in its first state.
    pub fn new(alloc: Global, cluster: Cluster, me: u8) -> Result<ReplicaState, NoMemory>
        requires { me < replica_count cluster }
        ensures { IfOk result (λ state. state ≡ record { f = cluster; me = me; state = first_replica cluster }) }
    {
        let ack = vec![in alloc; 0; cluster.n() as usize]?;
        Ok(ReplicaState {
            parts: Parts {
                cluster,
                me,
                status: Status::Normal,
                clock: 0,
                view: 0,
                last: 0,
                held: Held::new(alloc),
                commit: 0,
                results: Vec::new(alloc),
                store: Store::new(alloc),
                vector: CrashVector::zero(cluster.n()),
                origin: IndexMap::new(alloc),
                ack,
                quiet: 0,
                since: 0,
                reports: Vec::new(alloc),
                rejoin: first_rejoin(alloc),
                alloc,
            },
        })
    }

    /// Shows that the data has the facts of every replica.
    pub fn show_invariant(&self)
        ensures member { self.now.me < replica_count self.now.f }
        ensures facts { HasFacts self.now.f self.now.me self.now.state }
    {
        // The type's invariant is known where a field is used.
        let _member = &self.parts.me;
    }

    /// The replica's number.
    pub fn me(&self) -> u8
        ensures { result ≡ self.now.me }
    {
        self.parts.me
    }

    pub fn status(&self) -> Status
        ensures { result ≡ self.now.state.status }
    {
        self.parts.status
    }

    pub fn cluster(&self) -> Cluster
        ensures { result ≡ self.now.f }
    {
        self.parts.cluster
    }

    pub fn actor(&self) -> Actor
        ensures actor { result ≡ actors.Replica self.now.me }
        ensures address { HasAddress result }
    {
        // f is at most MAX_F, so the number is at most MAX_REPLICA.
        let _most = self.parts.cluster.f();
        Actor::Replica(self.parts.me)
    }

    pub fn allocator(&self) -> Global {
        self.parts.alloc
    }

    /// Whether the replica is in normal operation.
    pub fn is_normal(&self) -> bool
        ensures { result ≡ is_normal self.now.state.status }
    {
        matches!(self.parts.status, Status::Normal)
    }

    /// Whether the sender leads this view.
    pub fn is_leader_of(&self, view: u64, sender: u8) -> bool
        ensures { result ≡ (sender == leader_of self.now.f view) }
    {
        sender == self.parts.cluster.leader(view)
    }

    /// Whether the replica leads this view.
    pub fn would_lead(&self, view: u64) -> bool
        ensures { result ≡ (leader_of self.now.f view == self.now.me) }
    {
        self.parts.cluster.leader(view) == self.parts.me
    }

    /// Whether the replica leads its view, in whatever mode.
    pub fn leads(&self) -> bool
        ensures { result ≡ replicas.leads self.now.f self.now.me self.now.state }
    {
        self.would_lead(self.parts.view)
    }

    /// Whether it leads its view in normal operation.
    pub fn leads_view(&self) -> bool
        ensures { result ≡ replicas.leads_view self.now.f self.now.me self.now.state }
    {
        self.is_normal() && self.leads()
    }

    /// Whether it is a follower in normal operation, and hears the leader of its view.
    pub fn hears_leader(&self, view: u64, sender: u8) -> bool
        ensures { result ≡ replicas.hears_leader self.now.f self.now.me self.now.state view sender }
    {
        self.is_normal()
            && view == self.parts.view
            && self.is_leader_of(view, sender)
            && !self.leads()
    }

    /// Whether it is in a view change.
    pub fn is_changing(&self) -> bool
        ensures { result ≡ is_changing self.now.state.status }
    {
        matches!(self.parts.status, Status::ViewChange)
    }

    /// Whether it is in normal operation or in a view change.
    pub fn is_up(&self) -> bool
        ensures { result ≡ is_up self.now.state.status }
    {
        matches!(self.parts.status, Status::Normal | Status::ViewChange)
    }

    /// Whether it is on the way back after a crash.
    pub fn is_rejoining(&self) -> bool
        ensures { result ≡ is_rejoining self.now.state.status }
    {
        matches!(self.parts.status, Status::Rejoining)
    }

    /// Whether it is out of service.
    pub fn is_down(&self) -> bool
        ensures { result ≡ replicas.is_down self.now.state.status }
    {
        matches!(self.parts.status, Status::Down)
    }

    pub fn view(&self) -> u64
        ensures value { result ≡ self.now.state.view }
        ensures fits { fields.view.fits result }
    {
        self.parts.view
    }

    pub fn log(&self) -> &HashedLog
        ensures { result.now ≡ self.now.state.log }
    {
        &self.parts.held.log
    }

    pub fn commit(&self) -> u32
        ensures { result ≡ self.now.state.commit }
    {
        self.parts.commit
    }

    pub fn vector(&self) -> &CrashVector
        ensures value { result.now ≡ self.now.state.vector }
        ensures fits { fields.vector.fits result.now }
    {
        vector_fits(&self.parts.vector);
        &self.parts.vector
    }

    pub fn early(&self) -> &Early
        ensures { result.now ≡ self.now.state.early }
    {
        &self.parts.held.early
    }

    pub fn late(&self) -> &Late
        ensures { result.now ≡ self.now.state.late }
    {
        &self.parts.held.late
    }

    /// Where a request came from, if that is known.
    pub fn origin_of(&self, id: Id) -> Option<Origin>
        ensures value { result ≡ lookup (id_eq id) self.now.state.origin }
        ensures known { IfSome result (λ origin. origin.proxy ≤ MAX_PROXY) }
    {
        self.parts.origin.get(&id).copied()
    }

    /// A copy of the leader's answer to the entry at a place. A follower has none.
    pub fn answer_at(&self, place: u32) -> Result<Option<Answer>, NoMemory>
        ensures value { IfOk result (λ answer. answer ≡ answer_at self.now.f self.now.me self.now.state place) }
        ensures fits { IfOk result (λ answer. IfSome answer fields.answer.fits) }
    {
        if !self.leads() {
            return Ok(None);
        }
        match self.parts.results.get(place as usize) {
            None => Ok(None),
            Some(answer) => Ok(Some(copy_answer(self.parts.alloc, answer)?)),
        }
    }

    /// The clock goes to this reading, in clock units, but not past the last one.
    pub fn set_clock(&mut self, clock: u64)
        ensures { self.new ≡ record self.old { state = at_clock self.old.state clock } }
    {
        self.parts.clock = clock.min(MAX_CLOCK);
    }

    /// Keeps where a request came from.
    pub fn note_origin(&mut self, proxy: u8, body: &TimedBody) -> Result<(), NoMemory>
        requires { proxy ≤ MAX_PROXY }
        ensures { OnOk result (self.new ≡ record self.old { state = with_origin self.old.state proxy body.now }) }
    {
        let delay = self.parts.clock.saturating_sub(body.sent).min(MAX_DELAY) as u32;
        self.parts.origin.insert(body.id, Origin { proxy, delay })?;
        Ok(())
    }

    /// Keeps an entry until its deadline. One of its id leaves late.
    pub fn keep_early(&mut self, entry: Entry) -> Result<(), NoMemory>
        requires fit { FitsEntry entry }
        requires above { IsTrue (is_above_last (keys_of self.old.state.log.entries) entry.key) }
        requires logged { IsFalse (has_id (keys_of self.old.state.log.entries) (id_of entry.key)) }
        requires held { IsFalse (has_id (keys_of self.old.state.early) (id_of entry.key)) }
        ensures { OnOk result (self.new ≡ record self.old { state = to_early self.old.state entry }) }
    {
        self.parts.held.keep_early(entry)?;
        Ok(())
    }

    /// Keeps an entry that came late, unless one of its id is kept.
    pub fn keep_late(&mut self, entry: Entry) -> Result<(), NoMemory>
        requires fit { FitsEntry entry }
        requires logged { IsFalse (has_id (keys_of self.old.state.log.entries) (id_of entry.key)) }
        requires held { IsFalse (has_id (keys_of self.old.state.early) (id_of entry.key)) }
        ensures { OnOk result (self.new ≡ record self.old { state = to_late self.old.state entry }) }
    {
        self.parts.held.keep_late(entry)?;
        Ok(())
    }

    /// Whether the first early entry may be released: it is due, and the log has room.
    pub fn may_release(&self) -> bool
        ensures { result ≡ first_may self.now.state self.now.state.early }
    {
        match self.parts.held.early.first() {
            None => false,
            Some(first) => first.deadline <= self.parts.clock
                && self.parts.held.log.len() < MAX_ENTRIES,
        }
    }

    /// Releases the first early entry to the log, and gives its id. The leader executes it.
    pub fn release(&mut self) -> Result<Id, NoMemory>
        requires normal { IsTrue (is_normal self.old.state.status) }
        requires first { IsTrue (first_may self.old.state self.old.state.early) }
        ensures state { IfOk result (λ id. (e : EntryModel) (es : List EntryModel) → self.old.state.early ≡ e ∷ es
            → (id ≡ id_of e.key) × (self.new ≡ record self.old { state = after_release self.old.f self.old.me self.old.state e es })) }
        ensures grown { OnOk result (length self.new.state.log.entries ≡ length self.old.state.log.entries + 1) }
    {
        let leads = self.leads();
        match self.parts.held.early.take_due(self.parts.clock) {
            None => unreachable!(),
            Some(entry) => {
                let id = entry.key.id();
                match take_in(
                    leads,
                    &mut self.parts.store,
                    &mut self.parts.results,
                    &mut self.parts.held.log,
                    entry,
                ) {
                    Ok(()) => Ok(id),
                    Err(error) => {
                        forget(&mut self.parts);
                        Err(error)
                    }
                }
            }
        }
    }
}
