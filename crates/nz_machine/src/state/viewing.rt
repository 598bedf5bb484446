//! What a replica does to its state when it leaves its view for a later one, and when it starts one.

ghost use Rattle.std.specs.Prelude.{◌≡◌, ◌≤◌, ◌+◌, ◌==◌, nat_lt, min, length, IsTrue, IsFalse, OnOk};
ghost use Rattle.nz_base.specs.Cluster.{leader_of};
ghost use Rattle.nz_machine.specs.rules.Facts.{IsCarried};
ghost use Rattle.nz_machine.specs.rules.Does.{Does};
ghost use Rattle.nz_machine.specs.rules.Parts.{since_counted};
ghost use Rattle.nz_machine.specs.rules.Replicas.{is_changing};
ghost use Rattle.nz_machine.specs.rules.LogMods.{after_hearing};
ghost use Rattle.nz_machine.specs.rules.Views as views;
ghost use Rattle.nz_machine.specs.rules.Views.{in_view_change};
ghost use Rattle.nz_machine.specs.rules.Adopting.{normal_in};

use super::super::data::Status;
use super::super::outbox::Outbox;
use super::{ReplicaState, forget};
use nz_base::{EntryList, MAX_VIEW, NoMemory, VIEW_TIMEOUT_TICKS};

impl ReplicaState {
    /// How many reports the leader of its view holds to begin it.
    pub fn report_count(&self) -> usize
        ensures { result ≡ length self.now.state.reports }
    {
        self.parts.reports.len()
    }

    /// Whether there is a view after this one.
    pub fn has_next_view(&self) -> bool
        ensures { result ≡ nat_lt self.now.state.view MAX_VIEW }
    {
        self.parts.view < MAX_VIEW
    }

    /// The follower has heard from its leader.
    pub fn hear_leader(&mut self)
        ensures { self.new ≡ record self.old { state = after_hearing self.old.state } }
    {
        self.parts.quiet = 0;
    }

    /// The follower counts a tick without its leader. Whether it has waited long enough.
    pub fn count_quiet(&mut self) -> bool
        ensures state { let s = self.old.state in self.new ≡ record self.old { state = record s { quiet = min (s.quiet + 1) VIEW_TIMEOUT_TICKS } } }
        ensures value { result ≡ (self.new.state.quiet == VIEW_TIMEOUT_TICKS) }
    {
        self.parts.quiet = (self.parts.quiet + 1).min(VIEW_TIMEOUT_TICKS);
        self.parts.quiet == VIEW_TIMEOUT_TICKS
    }

    /// Counts a tick of the view change, and gives how many there are. After the last the count begins anew.
    pub fn count_changing(&mut self) -> u8
        requires { IsTrue (is_changing self.old.state.status) }
        ensures state { self.new ≡ record self.old { state = since_counted VIEW_TIMEOUT_TICKS self.old.state } }
        ensures value { result ≡ self.old.state.since + 1 }
    {
        let since = self.parts.since + 1;
        self.parts.since = if since == VIEW_TIMEOUT_TICKS {
            0
        } else {
            since
        };
        since
    }

    /// The view change of a later view begins.
    fn enter(&mut self, view: u64)
        requires later { self.old.state.view ≤ view }
        requires last { view ≤ MAX_VIEW }
        ensures { self.new ≡ record self.old { state = in_view_change self.old.state view } }
    {
        self.parts.status = Status::ViewChange;
        self.parts.view = view;
        self.parts.reports = Vec::new(self.parts.alloc);
        self.parts.since = 0;
        self.parts.quiet = 0;
    }

    /// A later view is entered, and everybody hears of it.
    #[tactic(auto, unfolding(crate::specs::rules::Views::enter_view))]
    pub fn enter_view(&mut self, view: u64, sends: &mut Outbox) -> Result<(), NoMemory>
        requires later { self.old.state.view ≤ view }
        requires last { view ≤ MAX_VIEW }
        ensures { let s = self.old in OnOk result (Does s self.new sends.old sends.new (views.enter_view s.f s.me view s.state)) }
    {
        self.enter(view);
        self.call_for_view(sends)
    }

    /// In normal operation in a view that another leads, with this log, of which this many entries are committed.
    pub fn adopt_log(&mut self, view: u64, log: EntryList, commit: u32) -> Result<(), NoMemory>
        requires view { view ≤ MAX_VIEW }
        requires follows { IsFalse (leader_of self.old.f view == self.old.me) }
        requires log { IsCarried log }
        requires commit { commit ≤ length log }
        ensures { OnOk result (self.new ≡ record self.old { state = normal_in self.old.state view log commit }) }
    {
        match self.parts.held.adopt(log) {
            Ok(()) => {
                self.parts.status = Status::Normal;
                self.parts.view = view;
                self.parts.last = view;
                self.parts.commit = commit;
                self.parts.quiet = 0;
                Ok(())
            }
            Err(error) => {
                forget(&mut self.parts);
                Err(error)
            }
        }
    }
}
