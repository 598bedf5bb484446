//! A gate at which workers wait for each other.

use nz_base::NoMemory;
use nz_edge::Gate;
use std::alloc::Global;
use std::sync::atomic::{AtomicU64, Ordering};
use std::thread::yield_now;

/// How often a worker that waits looks for the others.
const LOOKS: u32 = 1_000_000;

/// Counts the batches of each worker. The worker of the first batch waits, with its actor's lock, until another one has
/// played a batch and taken its next. In the last tick each worker waits until all have come.
#[derive(Drop)]
pub struct Meeting {
    /// How many batches each worker began.
    batches: Vec<AtomicU64>,
    /// How many of these were of the last tick.
    late: Vec<AtomicU64>,
    /// The first batch of the last tick.
    last: u64,
    /// How often a worker waited in vain.
    missed: AtomicU64,
}

fn zeros(alloc: Global, count: usize) -> Result<Vec<AtomicU64>, NoMemory> {
    let mut counts = Vec::new(alloc);
    for _ in 0..count {
        counts.push(AtomicU64::new(0))?;
    }
    Ok(counts)
}

fn add_one(counts: &[AtomicU64], worker: u8) {
    if let Some(count) = counts.get(usize::from(worker)) {
        count.fetch_add(1, Ordering::SeqCst);
    }
}

impl Meeting {
    pub fn new(alloc: Global, workers: usize, last: u64) -> Result<Meeting, NoMemory> {
        Ok(Meeting {
            batches: zeros(alloc, workers)?,
            late: zeros(alloc, workers)?,
            last,
            missed: AtomicU64::new(0),
        })
    }

    /// How many batches were begun in all.
    pub fn batches(&self) -> u64 {
        let mut sum = 0u64;
        for count in &self.batches {
            sum = sum.saturating_add(count.load(Ordering::SeqCst));
        }
        sum
    }

    /// How often a worker waited in vain.
    pub fn missed(&self) -> u64 {
        self.missed.load(Ordering::SeqCst)
    }

    /// Whether a worker that plays its first batch has begun its second: the first one has only one.
    fn has_other_gone_on(&self) -> bool {
        self.batches
            .iter()
            .any(|count| count.load(Ordering::SeqCst) >= 2)
    }

    fn are_all_late(&self) -> bool {
        self.late
            .iter()
            .all(|count| count.load(Ordering::SeqCst) >= 1)
    }

    fn wait_for_other(&self) {
        for _ in 0..LOOKS {
            if self.has_other_gone_on() {
                return;
            }
            yield_now();
        }
        self.missed.fetch_add(1, Ordering::SeqCst);
    }

    fn wait_for_all(&self) {
        for _ in 0..LOOKS {
            if self.are_all_late() {
                return;
            }
            yield_now();
        }
        self.missed.fetch_add(1, Ordering::SeqCst);
    }
}

impl Gate for Meeting {
    fn arrive(&self, worker: u8, batch: u64) {
        add_one(&self.batches, worker);
        if batch == 1 {
            self.wait_for_other();
        }
        if batch >= self.last {
            add_one(&self.late, worker);
            self.wait_for_all();
        }
    }
}
