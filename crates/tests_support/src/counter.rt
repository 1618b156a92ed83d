//! Counts that threads share, and a gate that counts runs.

use pipelines::{Gate, OutOfMemory};
use std::alloc::Global;
use std::sync::atomic::{AtomicU64, Ordering};

/// Counts the runs of tasks at their first giving, task by task, and all other runs.
#[derive(Drop)]
pub struct Counter {
    first: Vec<AtomicU64>,
    second: Vec<AtomicU64>,
    others: AtomicU64,
}

/// So many counts, each of which is 0.
pub fn counts(alloc: Global, count: u32) -> Result<Vec<AtomicU64>, OutOfMemory> {
    let mut counts = Vec::new(alloc);
    for _ in 0..count {
        counts.push(AtomicU64::new(0))?;
    }
    Ok(counts)
}

/// Whether each count is this one.
pub fn are_all(counts: &[AtomicU64], wanted: u64) -> bool {
    counts
        .iter()
        .all(|count| count.load(Ordering::SeqCst) == wanted)
}

impl Counter {
    /// The gate of two pipelines with `first` and `second` tasks.
    pub fn new(alloc: Global, first: u32, second: u32) -> Result<Self, OutOfMemory> {
        Ok(Counter {
            first: counts(alloc, first)?,
            second: counts(alloc, second)?,
            others: AtomicU64::new(0),
        })
    }

    /// Whether each task was run once, at its first giving, and nothing else was.
    pub fn is_each_run_once(&self) -> bool {
        are_all(&self.first, 1)
            && are_all(&self.second, 1)
            && self.others.load(Ordering::SeqCst) == 0
    }
}

impl Gate for Counter {
    fn before(&self, pipeline: u8, task: u32, round: u8) {
        let count = match (pipeline, round) {
            (1, 0) => self.first.get(task as usize),
            (2, 0) => self.second.get(task as usize),
            _ => None,
        };
        count.unwrap_or(&self.others).fetch_add(1, Ordering::SeqCst);
    }

    fn done(&self, _pipeline: u8) {}
}
