//! A gate that holds runs.

use crate::watch::hold_for;
use pipelines::{Gate, OutOfMemory};
use std::alloc::Global;
use std::sync::atomic::{AtomicBool, Ordering};

/// What a gate hears. Pipelines are 1 and 2.
#[derive(Clone, Copy, PartialEq, Eq)]
pub enum Heard {
    /// A run of this pipeline.
    Pipeline(u8),
    /// A run of this task of a pipeline.
    Task(u8, u32),
    /// A run of this task of a pipeline at its second giving.
    Again(u8, u32),
    /// The end of this pipeline.
    Done(u8),
}

/// The run of a task in a round is held until something is heard, for a number of turns at most.
#[derive(Clone, Copy)]
pub struct Hold {
    pub pipeline: u8,
    pub task: u32,
    pub round: u8,
    pub until: Heard,
    pub turns: u32,
}

impl Hold {
    /// The hold of a task at its first giving, which has a million turns.
    pub fn first(pipeline: u8, task: u32, until: Heard) -> Hold {
        Hold {
            pipeline,
            task,
            round: 0,
            until,
            turns: 1_000_000,
        }
    }
}

/// A hold, whether it has ended, and whether a run was held in vain.
#[derive(Drop)]
struct Held {
    hold: Hold,
    has_ended: AtomicBool,
    gave_up: AtomicBool,
}

/// Holds some runs.
#[derive(Drop)]
pub struct Warden {
    held: Vec<Held>,
    is_run_by_caller: AtomicBool,
}

impl Warden {
    /// The gate with these holds.
    pub fn of(alloc: Global, holds: &[Hold]) -> Result<Self, OutOfMemory> {
        let mut held = Vec::new(alloc);
        for hold in holds {
            held.push(Held {
                hold: *hold,
                has_ended: AtomicBool::new(false),
                gave_up: AtomicBool::new(false),
            })?;
        }
        Ok(Warden {
            held,
            is_run_by_caller: AtomicBool::new(false),
        })
    }

    /// Whether each hold has ended because of what was heard.
    pub fn never_gave_up(&self) -> bool {
        !self
            .held
            .iter()
            .any(|held| held.gave_up.load(Ordering::SeqCst))
    }

    /// Whether this one of the holds, which are numbered from 0, held a run in vain.
    pub fn gave_up(&self, hold: usize) -> bool {
        match self.held.get(hold) {
            Some(held) => held.gave_up.load(Ordering::SeqCst),
            None => false,
        }
    }

    /// Whether it heard of a run of the caller's own.
    pub fn is_run_by_caller(&self) -> bool {
        self.is_run_by_caller.load(Ordering::SeqCst)
    }

    /// Ends the holds that wait for this.
    fn hear(&self, heard: Heard) {
        for held in &self.held {
            if held.hold.until == heard {
                held.has_ended.store(true, Ordering::SeqCst);
            }
        }
    }

    /// Holds a run.
    fn detain(&self, pipeline: u8, task: u32, round: u8) {
        for held in &self.held {
            let hold = &held.hold;
            if (hold.pipeline, hold.task, hold.round) == (pipeline, task, round) {
                hold_for(hold.turns, &held.has_ended, &held.gave_up);
            }
        }
    }
}

impl Gate for Warden {
    fn before(&self, pipeline: u8, task: u32, round: u8) {
        self.hear(Heard::Pipeline(pipeline));
        self.hear(Heard::Task(pipeline, task));
        match round {
            0 => {}
            1 => self.hear(Heard::Again(pipeline, task)),
            _ => self.is_run_by_caller.store(true, Ordering::SeqCst),
        }
        self.detain(pipeline, task, round);
    }

    fn done(&self, pipeline: u8) {
        self.hear(Heard::Done(pipeline));
    }
}
