//! What the leader of a view does to its state when it collects reports, and begins the view.

ghost use Rattle.std.specs.Prelude.{◌≡◌, ◌<◌, not, nat_lt, length, IfOk, OnOk};
ghost use Rattle.nz_base.specs.declared.actor.Actor.TheVariants.{Replica};
ghost use Rattle.nz_merge.specs.Merged.{AreFit, merged};
ghost use Rattle.nz_msg.specs.Messages.{view_change};
ghost use Rattle.nz_machine.specs.rules.Does.{IsFromOther};
ghost use Rattle.nz_machine.specs.rules.Facts.{IsCarried};
ghost use Rattle.nz_machine.specs.rules.Begins as begins;
ghost use Rattle.nz_machine.specs.rules.Begins.{with_report, without_strays, with_own_report, after_begin};

use super::super::adopting::execute_all;
use super::super::data::{CollectedReport, Status};
use super::super::reports::{
    all_reports, clear_reports, drop_stray_reports, greatest_commit, replace_report,
};
use super::{ReplicaState, forget};
use nz_base::{EntryList, MAX_ENTRIES, NoMemory};
use nz_merge::{Report, Reports, merge};
use nz_msg::ViewChangeBody;
use std::mem;

impl ReplicaState {
    /// Reports that the replica's vector makes stray are no longer collected.
    pub fn drop_strays(&mut self)
        ensures { self.new ≡ record self.old { state = without_strays self.old.state } }
    {
        drop_stray_reports(&mut self.parts.reports, &self.parts.vector);
    }

    /// Collects the report in place of an earlier one of its sender. Its log is taken out of the body. Gives how many
    /// reports there are now.
    pub fn keep_report(&mut self, sender: u8, body: &mut ViewChangeBody) -> Result<usize, NoMemory>
        requires from { IsFromOther self.old (Replica sender) body.old.vector }
        requires fits { view_change.fits body.old }
        ensures state { OnOk result (self.new ≡ record self.old { state = with_report self.old.state sender body.old }) }
        ensures count { IfOk result (λ count. count ≡ length self.new.state.reports) }
    {
        let report = Report {
            sender,
            last: body.last,
            synced: body.synced,
            commit: body.commit,
            log: mem::replace(&mut body.entries, EntryList::new(self.parts.alloc)),
        };
        let reported = CollectedReport {
            vector: body.vector,
            report,
        };
        replace_report(&mut self.parts.reports, reported)?;
        Ok(self.parts.reports.len())
    }

    /// The reports that the view begins from: the replica's own, and the collected ones.
    fn reports(&self) -> Result<Reports, NoMemory>
        ensures value { IfOk result (λ reports. reports ≡ with_own_report self.now.me self.now.state) }
        ensures fit { IfOk result AreFit }
    {
        let own = Report {
            sender: self.parts.me,
            last: self.parts.last,
            synced: self.parts.held.log.synced(),
            commit: self.parts.commit,
            log: self.parts.held.log.entries()?,
        };
        let reports = all_reports(self.parts.alloc, own, &self.parts.reports)?;
        Ok(reports)
    }

    /// The view begins with the log, all of it executed, of which this many entries are committed if it has them.
    fn begin_with(&mut self, log: EntryList, commit: u32) -> Result<(), NoMemory>
        requires { IsCarried log }
        ensures { OnOk result (self.new ≡ record self.old { state = after_begin self.old.f self.old.state log commit }) }
    {
        let commit = commit.min(log.len());
        let (store, results) = execute_all(self.parts.alloc, log.as_slice())?;
        match self.parts.held.adopt(log) {
            Ok(()) => {
                self.parts.status = Status::Normal;
                self.parts.last = self.parts.view;
                self.parts.commit = commit;
                self.parts.quiet = 0;
                self.parts.store = store;
                self.parts.results = results;
                clear_reports(&mut self.parts.ack);
                Ok(())
            }
            Err(error) => {
                forget(&mut self.parts);
                Err(error)
            }
        }
    }

    /// The leader begins its view with the merged log. Whether a log has room for it.
    pub fn begin_view(&mut self) -> Result<bool, NoMemory>
        ensures state { OnOk result (self.new ≡ record self.old { state = (begins.begin self.old.f self.old.me self.old.state).0 }) }
        ensures begun { IfOk result (λ begun. begun ≡ not (nat_lt MAX_ENTRIES (length (merged self.old.f (with_own_report self.old.me self.old.state))))) }
    {
        let reports = self.reports()?;
        let log = merge(self.parts.alloc, self.parts.cluster, &reports)?;
        if log.len() > MAX_ENTRIES {
            return Ok(false);
        }
        self.begin_with(log, greatest_commit(reports.as_slice()))?;
        Ok(true)
    }
}
