//! Reports of different replicas, and whether they are fit to be merged.

ghost use Rattle.std.specs.Prelude.{◌≡◌, [], ◌∷◌, ◌++◌, ◌↔◌, IsTrue, IsFalse, OnOk, OnErr};
ghost use Rattle.nz_base.specs.Log.{keys_of};
ghost use Rattle.nz_merge.specs.Fit as fit;
ghost use Rattle.nz_merge.specs.Fit.{are_log, are_fit};
ghost use Rattle.nz_merge.specs.Merged.{AreFit};
ghost use Rattle.nz_merge.specs.Sender.{has_sender, HaveOwnSenders};

use nz_base::{Entry, EntryList, Key, NoMemory};
use std::alloc::Global;
use std::marker::Model;

/// What a replica reports to the leader of a new view.
#[derive(Debug, Drop)]
pub struct Report {
    /// The replica's number.
    pub sender: u8,
    /// The last view in which it was Normal.
    pub last: u64,
    /// How many entries of its log agree with that view's leader.
    pub synced: u32,
    /// How many entries it knows to be committed.
    pub commit: u32,
    pub log: EntryList,
}

/// Reports of different replicas.
#[derive(Debug, Drop)]
pub struct Reports {
    reports: Vec<Report>,
}

impl Model for Reports {
    ghost use Rattle.std.specs.Prelude.{List};
    ghost use Rattle.nz_merge.specs.declared.report.Report.{Report as ReportModel};
    ghost use Rattle.nz_merge.specs.Sender.{HaveOwnSenders};

    ghost Value = { List ReportModel };

    ghost view = { λ s. s.reports.items };

    ghost invariant = { λ s. HaveOwnSenders s.reports.items };
}

impl Reports {
    pub fn new(alloc: Global) -> Reports
        ensures { result ≡ [] }
    {
        Reports {
            reports: Vec::new(alloc),
        }
    }

    /// Whether a report of this replica is there.
    pub fn has_sender(&self, sender: u8) -> bool
        ensures { result ≡ has_sender self.now sender }
    {
        self.reports.iter().any(|report| report.sender == sender)
    }

    /// Puts a report last.
    pub fn push(&mut self, report: Report) -> Result<(), NoMemory>
        requires { IsFalse (has_sender self.old report.sender) }
        ensures ok { OnOk result (self.new ≡ self.old ++ report ∷ []) }
        ensures err { OnErr result (self.new ≡ self.old) }
    {
        self.reports.push(report)?;
        Ok(())
    }

    /// Whether each log is a log, and each synced count at most its length.
    pub fn are_fit(&self) -> bool
        ensures { IsTrue result ↔ AreFit self.now }
    {
        all_fit(&self.reports)
    }

    pub fn as_slice(&self) -> &[Report]
        ensures value { result.now ≡ self.now }
        ensures own { HaveOwnSenders result.now }
    {
        &self.reports
    }
}

fn all_fit(reports: &[Report]) -> bool
    ensures { result ≡ are_fit reports.now }
{
    for report in reports {
        if report.synced > report.log.len() || !is_log(report.log.as_slice()) {
            return false;
        }
    }
    true
}

fn is_log(log: &[Entry]) -> bool
    ensures { result ≡ are_log (keys_of log.now) }
{
    for (place, entry) in log.iter().enumerate() {
        if !comes_first(entry.key, &log[place + 1..]) {
            return false;
        }
    }
    true
}

fn comes_first(key: Key, others: &[Entry]) -> bool
    ensures { result ≡ fit.comes_first key (keys_of others.now) }
{
    for entry in others {
        if !key.is_below(&entry.key) || key.id() == entry.key.id() {
            return false;
        }
    }
    true
}
