//! What a merge looks at in the reports of one last view.

ghost use Rattle.std.specs.Prelude.{◌≡◌, ◌+◌, ◌≤◌, ◌<◌, ◌&&◌, ◌==◌, not, length, map, IfOk, OnOk, IfSome, is_some, IsFalse, IsTrue, slice_get, Some, drop};
ghost use Rattle.std.specs.Option.{option_copied};
ghost use Rattle.std.specs.List.{filter};
ghost use Rattle.nz_base.specs.Key.{id_of};
ghost use Rattle.nz_base.specs.Log.{keys_of, has_key, has_id, AreRising, is_above_last};
ghost use Rattle.nz_merge.specs.Merged as merged;
ghost use Rattle.nz_merge.specs.Merged.{AreFit, command_of_key, put_all_in_order, IsFit, greatest, of_view, lower_of, lowest};
ghost use Rattle.nz_merge.specs.Merged.{with_synced, merged_synced_part, holders, entry_in};

use super::report::Report;
use nz_base::{Blob, Entry, EntryList, Id, Key, List, NoMemory, TryCopy};
use std::alloc::Global;
use std::collections::BTreeSet;

/// The greatest last view.
pub fn greatest_last(reports: &[Report]) -> u64
    ensures { result ≡ greatest (map (λ c. c.last) reports.now) }
{
    let mut most = 0;
    for report in reports {
        most = most.max(report.last);
    }
    most
}

fn greatest_synced(reports: &[Report], view: u64) -> u32
    ensures { result ≡ greatest (map (λ c. c.synced) (of_view view reports.now)) }
{
    let mut most = 0;
    for report in reports {
        if report.last == view {
            most = most.max(report.synced);
        }
    }
    most
}

// The one of the lower sender.
fn lower<'a>(best: Option<&'a Report>, report: &'a Report) -> &'a Report
    ensures { result.now ≡ lower_of (option_copied best.entry) report.now }
{
    match best {
        Some(best) if best.sender <= report.sender => best,
        _ => report,
    }
}

fn most_synced(reports: &[Report], view: u64) -> Option<&Report>
    requires { AreFit reports.now }
    ensures value { option_copied result ≡ lowest
        (with_synced (greatest (map (λ c. c.synced) (of_view view reports.now))) (of_view view reports.now)) }
    ensures fit { IfSome result (λ c. IsFit c.now) }
{
    let most = greatest_synced(reports, view);
    let mut best = None;
    for report in reports {
        if report.last == view && report.synced == most {
            best = Some(lower(best, report));
        }
    }
    best
}

/// Copies of the synced entries that are taken.
pub fn copy_synced_part(alloc: Global, reports: &[Report], view: u64) -> Result<EntryList, NoMemory>
    requires { AreFit reports.now }
    ensures { IfOk result (λ log. log ≡ merged_synced_part (of_view view reports.now)) }
{
    match most_synced(reports, view) {
        None => Ok(List::new(alloc)),
        Some(report) => List::from_slice(alloc, &report.log.as_slice()[..report.synced as usize]),
    }
}

// Where a log has a key.
fn place_of(log: &[Entry], key: Key) -> Option<usize>
    ensures found { IfSome result (λ p. (p < length log.now) × (slice_get (keys_of log.now) p ≡ Some key)) }
    ensures is_there { AreRising (keys_of log.now) → is_some result ≡ has_key (keys_of log.now) key }
{
    log.binary_search_by_key(&key, |entry| entry.key).ok()
}

fn holds(report: &Report, view: u64, key: Key) -> bool
    requires { IsFit report.now }
    ensures { result ≡ ((report.now.last == view) && has_key (keys_of report.now.log) key) }
{
    report.last == view && place_of(report.log.as_slice(), key).is_some()
}

/// How many of the logs hold a key.
pub fn count_holders(reports: &[Report], view: u64, key: Key) -> usize
    requires { AreFit reports.now }
    ensures { result ≡ length (holders (of_view view reports.now) key) }
{
    let mut count = 0;
    for report in reports {
        if holds(report, view, key) {
            count += 1;
        }
    }
    count
}

fn lowest_holder(reports: &[Report], view: u64, key: Key) -> Option<&Report>
    requires { AreFit reports.now }
    ensures value { option_copied result ≡ lowest (holders (of_view view reports.now) key) }
    ensures fit { IfSome result (λ c. IsFit c.now) }
{
    let mut best = None;
    for report in reports {
        if holds(report, view, key) {
            best = Some(lower(best, report));
        }
    }
    best
}

// The command that a log has for a key, or an empty one.
fn copy_command(alloc: Global, log: &[Entry], key: Key) -> Result<Blob, NoMemory>
    requires { AreRising (keys_of log.now) }
    ensures { IfOk result (λ command. command ≡ command_of_key key log.now) }
{
    match place_of(log, key) {
        Some(place) => log[place].command.copy(alloc),
        None => Blob::from_slice(alloc, &[]),
    }
}

/// A key with its command in the log of the lowest sender that holds it.
pub fn copy_entry(alloc: Global, reports: &[Report], view: u64, key: Key) -> Result<Entry, NoMemory>
    requires { AreFit reports.now }
    ensures { IfOk result (λ entry. entry ≡ entry_in (of_view view reports.now) key) }
{
    let command = match lowest_holder(reports, view, key) {
        Some(report) => copy_command(alloc, report.log.as_slice(), key)?,
        None => Blob::from_slice(alloc, &[])?,
    };
    Ok(Entry { key, command })
}

/// The keys of the logs that are above the last of some entries, in their order.
pub fn keys_above(
    alloc: Global,
    reports: &[Report],
    view: u64,
    base: &[Entry],
) -> Result<BTreeSet<Key>, NoMemory>
    ensures { IfOk result (λ set. set.keys ≡ merged.keys_above (keys_of base.now) (of_view view reports.now)) }
{
    let mut keys = BTreeSet::new(alloc);
    for report in reports {
        if report.last == view {
            put_keys_above(&mut keys, base, report.log.as_slice())?;
        }
    }
    Ok(keys)
}

fn put_keys_above(keys: &mut BTreeSet<Key>, base: &[Entry], log: &[Entry]) -> Result<(), NoMemory>
    ensures { OnOk result
        (keys.new.keys ≡ put_all_in_order keys.old.keys (filter (is_above_last (keys_of base.now)) (keys_of log.now))) }
{
    for entry in log {
        if is_above(base, entry.key) {
            keys.insert(entry.key)?;
        }
    }
    Ok(())
}

fn holds_id(log: &[Entry], id: Id) -> bool
    ensures { result ≡ has_id (keys_of log.now) id }
{
    for entry in log {
        if entry.key.id() == id {
            return true;
        }
    }
    false
}

fn is_above(log: &[Entry], key: Key) -> bool
    ensures { result ≡ is_above_last (keys_of log.now) key }
{
    match log.last() {
        Some(last) => last.key.is_below(&key),
        None => true,
    }
}

/// Whether a key may follow the entries that were taken.
pub fn may_follow(log: &[Entry], key: Key) -> bool
    ensures { result ≡ (is_above_last (keys_of log.now) key && not (has_id (keys_of log.now) (id_of key))) }
{
    is_above(log, key) && !holds_id(log, key.id())
}
