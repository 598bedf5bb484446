//! Merges of logs, worked out apart from the program.

use super::*;
use nz_base::{Blob, Cluster, Entry, EntryList, Key, List, NoMemory};
use std::alloc::Global;
use std::test::*;

// A log of keys with these deadlines. Commands name the key and the log.
fn log_of(alloc: Global, sender: u8, deadlines: &[u8]) -> Result<EntryList, NoMemory> {
    let mut log = List::new(alloc);
    for deadline in deadlines {
        let key = Key {
            deadline: u64::from(*deadline),
            client: 0,
            num: u32::from(*deadline),
        };
        let command = Blob::from_slice(alloc, &[*deadline, sender])?;
        log.push(Entry { key, command })?;
    }
    Ok(log)
}

// The reports of replicas 0, 1 and 2: last view, synced count and log of each.
fn with_own_report(alloc: Global, rows: &[(u64, u32, &[u8])]) -> Result<Reports, NoMemory> {
    let mut reports = Reports::new(alloc);
    for (sender, (last, synced, deadlines)) in rows.iter().enumerate() {
        if sender > 255 || reports.has_sender(sender as u8) {
            return Ok(reports);
        }
        let log = log_of(alloc, sender as u8, deadlines)?;
        reports.push(Report {
            sender: sender as u8,
            last: *last,
            synced: *synced,
            commit: 0,
            log,
        })?;
    }
    Ok(reports)
}

#[test]
fn merges(rt: HostRuntime) -> Result<(), Fail> {
    let cluster = Cluster::new(2).ok_or("two is a size")?;
    let table: [([(u64, u32, &[u8]); 3], &[(u8, u8)]); 7] = [
        (
            [(0, 1, &[1]), (0, 1, &[1, 2]), (0, 1, &[1, 2])],
            &[(1, 0), (2, 1)],
        ),
        ([(0, 1, &[1]), (0, 1, &[1, 2]), (0, 1, &[1, 3])], &[(1, 0)]),
        (
            [(0, 0, &[]), (0, 0, &[2]), (0, 2, &[1, 2])],
            &[(1, 2), (2, 2)],
        ),
        ([(0, 0, &[1, 3]), (0, 0, &[3]), (0, 0, &[4])], &[(3, 0)]),
        ([(2, 1, &[1]), (1, 0, &[2]), (1, 0, &[2])], &[(1, 0)]),
        (
            [(0, 0, &[2, 4]), (0, 1, &[3]), (0, 0, &[2, 4])],
            &[(3, 1), (4, 0)],
        ),
        (
            [(0, 1, &[1, 2]), (0, 2, &[1, 2]), (0, 2, &[1, 2])],
            &[(1, 1), (2, 1)],
        ),
    ];
    for (rows, want) in table {
        let reports = with_own_report(rt.alloc(), &rows)
            .ok()
            .ok_or("there is memory")?;
        if !reports.are_fit() {
            return Err("the reports are fit".into());
        }
        let log = merge(rt.alloc(), cluster, &reports)
            .ok()
            .ok_or("there is memory")?;
        assert_eq!(rt; log.as_slice().len(), want.len());
        for (entry, (deadline, sender)) in log.as_slice().iter().zip(want) {
            assert_eq!(rt; entry.key.deadline, u64::from(*deadline));
            assert_eq!(rt; entry.command.as_slice(), [*deadline, *sender].as_slice());
        }
    }
    Ok(())
}
