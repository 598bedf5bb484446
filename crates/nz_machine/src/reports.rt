//! What a replica collects of the others: reports to begin a view, and what they tell one that rejoins.

ghost use Rattle.std.specs.Prelude.{◌≡◌, ◌∷◌, ◌++◌, [], ◌==◌, not, length, map, filter, replicate, if◌then◌else◌, IfOk, OnOk, OnErr};
ghost use Rattle.std.specs.List.{list_any};
ghost use Rattle.nz_cv.specs.Vectors as vectors;
ghost use Rattle.nz_merge.specs.declared.report.Report.{Report as ReportModel};
ghost use Rattle.nz_merge.specs.Merged.{greatest};
ghost use Rattle.nz_merge.specs.Sender.{HaveOwnSenders};
ghost use Rattle.nz_machine.specs.declared.data.CollectedReport.{CollectedReport as CollectedReportModel};
ghost use Rattle.nz_machine.specs.declared.data.ToldView.{ToldView as ToldViewModel};

use super::data::{CollectedReport, ToldView};
use nz_base::{List, NoMemory, TryCopy};
use nz_cv::CrashVector;
use nz_merge::{Report, Reports};
use std::alloc::Global;

/// Collects the report in place of an earlier one of its sender.
pub fn replace_report(
    reports: &mut Vec<CollectedReport>,
    reported: CollectedReport,
) -> Result<(), NoMemory>
    ensures ok { OnOk result (reports.new.items
        ≡ filter (λ (r : CollectedReportModel). not (r.report.sender == reported.report.sender)) reports.old.items ++ reported ∷ []) }
    ensures err { OnErr result (reports.new.items ≡ reports.old.items) }
{
    // No report is lost where there is no memory for this one.
    reports.reserve(1)?;
    let sender = reported.report.sender;
    reports.retain(|r| r.report.sender != sender);
    reports.push_reserved(reported);
    Ok(())
}

/// No replica has reported how far its log agrees.
pub fn clear_reports(ack: &mut Vec<u32>)
    ensures { ack.new.items ≡ replicate (length ack.old.items) 0 }
{
    ack.as_mut_slice().fill(0);
}

/// Drops the reports that the vector makes stray.
pub fn drop_stray_reports(reports: &mut Vec<CollectedReport>, known: &CrashVector)
    ensures { reports.new.items ≡ filter (λ (r : CollectedReportModel). not (vectors.is_stray r.vector r.report.sender known.now)) reports.old.items }
{
    reports.retain(|r| !r.vector.is_stray(r.report.sender, known));
}

/// The views that were told without an earlier one of the sender, with this one, and without those that are stray.
#[tactic(auto, using(crate::proofs::facts::Collects::tells_replaced, crate::proofs::facts::Collects::tells_stray, crate::proofs::facts::Collects::tells_more, crate::proofs::facts::Collects::told_stray, crate::proofs::facts::Collects::told_more))]
pub fn with_told(
    alloc: Global,
    tells: &[ToldView],
    told: ToldView,
    known: &CrashVector,
) -> Result<List<ToldView>, NoMemory>
    ensures { IfOk result (λ list. list ≡ filter
        (λ (t : ToldViewModel). not (vectors.is_stray t.vector t.sender known.now))
        (filter (λ (t : ToldViewModel). not (t.sender == told.sender)) tells.now ++ told ∷ [])) }
{
    let mut list = List::new(alloc);
    for other in tells {
        if other.sender != told.sender && !other.vector.is_stray(other.sender, known) {
            list.push(*other)?;
        }
    }
    if told.vector.is_stray(told.sender, known) {
        return Ok(list);
    }
    list.push(told)?;
    Ok(list)
}

/// The latest view that was told.
pub fn latest(tells: &[ToldView]) -> u64
    ensures { result ≡ greatest (map (λ (t : ToldViewModel). t.view) tells.now) }
{
    let mut latest = 0;
    for told in tells {
        latest = latest.max(told.view);
    }
    latest
}

fn has_told(tellers: &[u8], sender: u8) -> bool
    ensures { result ≡ list_any (λ t. t == sender) tellers.now }
{
    tellers.iter().any(|teller| *teller == sender)
}

/// The tellers with one more, each once.
pub fn note_teller(tellers: &mut List<u8>, sender: u8) -> Result<(), NoMemory>
    ensures ok { OnOk result (tellers.new ≡ (if list_any (λ t. t == sender) tellers.old then tellers.old else tellers.old ++ sender ∷ [])) }
    ensures err { OnErr result (tellers.new ≡ tellers.old) }
{
    if !has_told(tellers.as_slice(), sender) {
        tellers.push(sender)?;
    }
    Ok(())
}

fn copy_report(alloc: Global, report: &Report) -> Result<Report, NoMemory>
    ensures { IfOk result (λ copy. copy ≡ report.now) }
{
    Ok(Report {
        sender: report.sender,
        last: report.last,
        synced: report.synced,
        commit: report.commit,
        log: report.log.copy(alloc)?,
    })
}

/// The own report, and after it copies of the collected ones.
#[tactic(auto, using(crate::proofs::facts::Collects::own_reported, crate::proofs::facts::Collects::reports_more))]
pub fn all_reports(
    alloc: Global,
    own: Report,
    collected: &[CollectedReport],
) -> Result<Reports, NoMemory>
    requires { HaveOwnSenders (own ∷ map (λ (r : CollectedReportModel). r.report) collected.now) }
    ensures { IfOk result (λ reports. reports ≡ own ∷ map (λ (r : CollectedReportModel). r.report) collected.now) }
{
    let mut reports = Reports::new(alloc);
    reports.push(own)?;
    for reported in collected {
        reports.push(copy_report(alloc, &reported.report)?)?;
    }
    Ok(reports)
}

/// How many entries the reports know to be committed at most.
pub fn greatest_commit(reports: &[Report]) -> u32
    ensures { result ≡ greatest (map (λ (c : ReportModel). c.commit) reports.now) }
{
    let mut commit = 0;
    for report in reports {
        commit = commit.max(report.commit);
    }
    commit
}
