//! What a replica does to its state when it crashes, restarts and rejoins.

ghost use Rattle.std.specs.Prelude.{◌≡◌, ◌<◌, ◌≤◌, ◌+◌, ◌==◌, [], not, length, IsTrue, IfOk, OnOk};
ghost use Rattle.std.specs.Bool.{OnTrue, OnFalse};
ghost use Rattle.nz_base.specs.declared.actor.Actor.TheVariants.{Replica};
ghost use Rattle.nz_msg.specs.Messages.{rejoin_tell};
ghost use Rattle.nz_machine.specs.rules.Does.{IsFromMember};
ghost use Rattle.nz_machine.specs.rules.Parts.{since_counted};
ghost use Rattle.nz_machine.specs.rules.Replicas.{crashed_replica, is_rejoining};
ghost use Rattle.nz_machine.specs.rules.Rejoining as rejoining;
ghost use Rattle.nz_machine.specs.rules.Rejoining.{last_counter, restarted_replica, with_teller};
ghost use Rattle.nz_machine.specs.rules.Rejoining.{with_new_counter, with_tell, with_tells, ask_views, ask_log};

use super::super::buffers::vector_fits;
use super::super::data::{Phase, Status, ToldView};
use super::super::reports::{latest, note_teller, with_told};
use super::{ReplicaState, forget};
use nz_base::{List, MAX_VIEW, NoMemory, REJOIN_ASK_TICKS};
use nz_cv::CrashVector;
use nz_msg::RejoinTellBody;

impl ReplicaState {
    /// A replica that crashes forgets all.
    pub fn crash(&mut self)
        ensures { self.new ≡ record self.old { state = crashed_replica self.old.f } }
    {
        forget(&mut self.parts);
    }

    /// It comes back as it was at first, but has to rejoin.
    pub fn restart(&mut self, nonce: u64)
        ensures { self.new ≡ record self.old { state = restarted_replica self.old.f nonce } }
    {
        forget(&mut self.parts);
        self.parts.status = Status::Rejoining;
        self.parts.rejoin.nonce = nonce;
    }

    pub fn phase(&self) -> Phase
        ensures { result ≡ self.now.state.rejoin.phase }
    {
        self.parts.rejoin.phase
    }

    /// How many have told their crash vectors.
    pub fn tellers(&self) -> u32
        ensures { result ≡ length self.now.state.rejoin.tellers }
    {
        self.parts.rejoin.tellers.len()
    }

    /// How many have told their views.
    pub fn tells(&self) -> u32
        ensures { result ≡ length self.now.state.rejoin.tells }
    {
        self.parts.rejoin.tells.len()
    }

    /// The view whose log was asked for.
    pub fn wanted_view(&self) -> u64
        ensures { result ≡ self.now.state.rejoin.wanted }
    {
        self.parts.rejoin.wanted
    }

    /// Whether the replica rejoins, is in this phase, and gave this nonce.
    pub fn awaits(&self, phase: Phase, nonce: u64) -> bool
        ensures { result ≡ rejoining.awaits phase self.now.state nonce }
    {
        self.is_rejoining() && self.parts.rejoin.phase == phase && nonce == self.parts.rejoin.nonce
    }

    /// Counts a tick of the rejoin. Whether a period is over, after which the count begins anew.
    pub fn count_rejoining(&mut self) -> bool
        requires { IsTrue (is_rejoining self.old.state.status) }
        ensures state { self.new ≡ record self.old { state = since_counted REJOIN_ASK_TICKS self.old.state } }
        ensures value { result ≡ (self.old.state.since + 1 == REJOIN_ASK_TICKS) }
    {
        let since = self.parts.since + 1;
        let is_over = since == REJOIN_ASK_TICKS;
        self.parts.since = if is_over { 0 } else { since };
        is_over
    }

    /// The sender has told its vector. Gives how many have.
    pub fn note_teller(&mut self, sender: u8, vector: &CrashVector) -> Result<usize, NoMemory>
        requires { IsFromMember self.old (Replica sender) vector.now }
        ensures state { OnOk result (self.new ≡ record self.old { state = with_teller self.old.me self.old.state sender vector.now }) }
        ensures count { IfOk result (λ count. count ≡ length self.new.state.rejoin.tellers) }
    {
        // Each of its counters has four bytes.
        vector_fits(vector);
        note_teller(&mut self.parts.rejoin.tellers, sender)?;
        let told = vector.get(self.parts.me);
        self.parts.rejoin.claim = self.parts.rejoin.claim.max(told);
        Ok(self.parts.rejoin.tellers.len() as usize)
    }

    /// The own counter becomes one more than any teller knew, if there is a greater.
    pub fn take_new_counter(&mut self) -> bool
        ensures value { result ≡ not (self.old.state.rejoin.claim == last_counter) }
        ensures taken { OnTrue result (self.new ≡ record self.old { state = with_new_counter self.old.me self.old.state }) }
        ensures unchanged { OnFalse result (self.new ≡ self.old) }
    {
        self.parts
            .vector
            .bump(self.parts.me, self.parts.rejoin.claim)
    }

    /// The second phase starts with nothing collected.
    pub fn start_views(&mut self)
        ensures { self.new ≡ record self.old { state = (ask_views self.old.f self.old.me self.old.state).0 } }
    {
        self.parts.since = 0;
        self.parts.rejoin.phase = Phase::Views;
        self.parts.rejoin.tells = List::new(self.parts.alloc);
    }

    /// The view is collected in place of an earlier one of its sender, and those that are now stray go. Gives
    /// how many there are then.
    pub fn note_view(&mut self, sender: u8, body: &RejoinTellBody) -> Result<usize, NoMemory>
        requires from { IsFromMember self.old (Replica sender) body.now.vector }
        requires fits { rejoin_tell.fits body.now }
        ensures state { OnOk result (self.new ≡ record self.old { state = with_tell self.old.state sender body.now }) }
        ensures count { IfOk result (λ count. count ≡ length self.new.state.rejoin.tells) }
    {
        let told = ToldView {
            sender,
            view: body.view,
            vector: body.vector,
        };
        self.parts.rejoin.tells = with_told(
            self.parts.alloc,
            self.parts.rejoin.tells.as_slice(),
            told,
            &self.parts.vector,
        )?;
        Ok(self.parts.rejoin.tells.len() as usize)
    }

    /// The latest view that was told.
    pub fn latest_view(&self) -> u64
        ensures value { result ≡ rejoining.latest_view self.now.state }
        ensures last { result ≤ MAX_VIEW }
    {
        latest(self.parts.rejoin.tells.as_slice())
    }

    /// Nothing stays collected: the replica led the latest view itself, and waits for a later one.
    pub fn drop_views(&mut self)
        ensures { self.new ≡ record self.old { state = with_tells self.old.state [] } }
    {
        self.parts.rejoin.tells = List::new(self.parts.alloc);
    }

    /// The third phase starts, in which the log of this view is wanted.
    pub fn start_log(&mut self, view: u64)
        requires { view ≤ MAX_VIEW }
        ensures { self.new ≡ record self.old { state = (ask_log self.old.f self.old.state view).0 } }
    {
        self.parts.since = 0;
        self.parts.rejoin.phase = Phase::Log;
        self.parts.rejoin.wanted = view;
    }
}
