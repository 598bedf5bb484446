//! What a replica does to its state so that its log agrees with the leader's.

ghost use Rattle.std.specs.Prelude.{◌≡◌, ◌<◌, ◌≤◌, [], not, length, drop, IsTrue, IsFalse, IfOk, OnOk, slice_index};
ghost use Rattle.std.specs.List.{AllByRecursion};
ghost use Rattle.nz_base.specs.Cluster.{replica_count};
ghost use Rattle.nz_cv.specs.Vectors.{is_stray};
ghost use Rattle.nz_base.specs.declared.actor.Actor.TheVariants.{Replica};
ghost use Rattle.nz_base.specs.declared.limits.TheConstants.{MAX_REPLICA};
ghost use Rattle.nz_msg.specs.Fields as fields;
ghost use Rattle.nz_machine.specs.rules.Does.{IsFromMember};
ghost use Rattle.nz_machine.specs.rules.Replicas as replicas;
ghost use Rattle.nz_machine.specs.rules.Replicas.{is_normal};
ghost use Rattle.nz_machine.specs.rules.Requests.{is_full};
ghost use Rattle.nz_machine.specs.rules.Vectors.{unless_stray};
ghost use Rattle.nz_machine.specs.rules.LogMods.{is_held, with_ack, with_commit, sync_keys, overtaken_to_late, committed_to, missing_ids};

use super::super::buffers::vector_fits;
use super::super::commit_quorum::reported;
use super::{ReplicaState, forget};
use nz_base::{Id, IdList, Key, MAX_ENTRIES, NoMemory};
use nz_cv::CrashVector;

impl ReplicaState {
    /// The vector rule: a stray message changes nothing. Of another one the vector is merged, and the message counts.
    pub fn merge_unless_stray(&mut self, sender: u8, vector: &CrashVector) -> bool
        requires { IsFromMember self.old (Replica sender) vector.now }
        ensures address { sender ≤ MAX_REPLICA }
        ensures counts { result ≡ not (is_stray vector.now sender self.old.state.vector) }
        ensures state { self.new ≡ record self.old { state = (unless_stray self.old.me self.old.state sender vector.now (λ s. (s, []))).0 } }
    {
        // f is at most MAX_F, so the number is at most MAX_REPLICA.
        let _most = self.parts.cluster.f();
        if vector.is_stray(sender, &self.parts.vector) {
            return false;
        }
        // Each of its counters has four bytes.
        vector_fits(vector);
        self.parts.vector.merge(vector, self.parts.me);
        true
    }

    /// Whether an entry with the id is in log, early or late.
    pub fn holds(&self, id: Id) -> bool
        ensures { result ≡ is_held self.now.state id }
    {
        self.parts.held.log.place_of(id).is_some()
            || self.parts.held.early.find(id).is_some()
            || self.parts.held.late.find(id).is_some()
    }

    /// Whether log, early and late together hold as many entries as a log may.
    pub fn is_full(&self) -> bool
        ensures { result ≡ is_full self.now.state }
    {
        let waiting = self
            .parts
            .held
            .early
            .len()
            .saturating_add(self.parts.held.late.len());
        waiting.saturating_add(self.parts.held.log.len() as usize) >= MAX_ENTRIES as usize
    }

    /// How many entries of a replica's log agree with the leader's, as its reports say.
    pub fn ack_of(&self, replica: u8) -> u32
        requires { replica < replica_count self.now.f }
        ensures { result ≡ slice_index self.now.state.ack replica }
    {
        self.parts.ack[replica as usize]
    }

    /// The ids of some keys that are found nowhere.
    #[tactic(auto, using(crate::proofs::facts::SyncInvariant::missing_held, crate::proofs::facts::SyncInvariant::missing_more))]
    pub fn missing(&self, keys: &[Key]) -> Result<IdList, NoMemory>
        ensures { IfOk result (λ ids. ids ≡ missing_ids self.now.state keys.now) }
    {
        let mut ids = IdList::new(self.parts.alloc);
        for key in keys {
            let id = key.id();
            if !self.holds(id) {
                ids.push(id)?;
            }
        }
        Ok(ids)
    }

    /// Notes how many entries of a replica's log agree, and commits what f others report.
    pub fn note_report(&mut self, sender: u8, synced: u32)
        requires normal { IsTrue (is_normal self.old.state.status) }
        requires leads { IsTrue (replicas.leads self.old.f self.old.me self.old.state) }
        requires sender { sender < replica_count self.old.f }
        requires low { synced ≤ length self.old.state.log.entries }
        ensures { self.new ≡ record self.old { state = with_commit self.old.f self.old.me (with_ack self.old.state sender synced) } }
    {
        let place = sender as usize;
        self.parts.ack[place] = self.parts.ack[place].max(synced);
        self.parts.commit = self.parts.commit.max(reported(
            self.parts.cluster,
            self.parts.me,
            &self.parts.ack,
        ));
    }

    /// Takes keys of the leader's log, and commits what the leader committed. Gives the place of the first
    /// key that is missing, or their count.
    fn take(&mut self, keys: &[Key], commit: u32) -> Result<usize, NoMemory>
        requires normal { IsTrue (is_normal self.old.state.status) }
        requires follows { IsFalse (replicas.leads self.old.f self.old.me self.old.state) }
        requires fit { AllByRecursion fields.key.fits keys.now }
        ensures within { IfOk result (λ place. place ≤ length keys.now) }
        ensures state { OnOk result (self.new ≡ record self.old { state = committed_to (overtaken_to_late (sync_keys self.old.state keys.now).0) commit }) }
        ensures missing { IfOk result (λ place. (sync_keys self.old.state keys.now).1 ≡ drop place keys.now) }
    {
        match self.parts.held.sync(self.parts.alloc, keys) {
            Ok(place) => {
                self.parts.commit = self
                    .parts
                    .commit
                    .max(commit.min(self.parts.held.log.synced()));
                Ok(place)
            }
            Err(error) => {
                forget(&mut self.parts);
                Err(error)
            }
        }
    }

    /// Takes keys of the leader's log, of which the first belongs to the first place that is not synced,
    /// and commits what the leader committed. Gives the ids that are missing.
    pub fn sync(&mut self, keys: &[Key], commit: u32) -> Result<IdList, NoMemory>
        requires normal { IsTrue (is_normal self.old.state.status) }
        requires follows { IsFalse (replicas.leads self.old.f self.old.me self.old.state) }
        requires fit { AllByRecursion fields.key.fits keys.now }
        ensures state { OnOk result (self.new ≡ record self.old { state = committed_to (overtaken_to_late (sync_keys self.old.state keys.now).0) commit }) }
        ensures missing { IfOk result (λ ids. ids ≡ missing_ids self.new.state (sync_keys self.old.state keys.now).1) }
    {
        let place = self.take(keys, commit)?;
        self.missing(&keys[place..])
    }
}
