//! What the inputs of a test share.

use gathering::OutOfMemory;
use std::alloc::{AllocError, Global};
use std::ops::Range;
use std::sync::Arc;
use std::sync::atomic::{AtomicBool, AtomicU64, Ordering};
use std::thread;

/// Looks at a flag until it is set. It gives up after a million turns, and then sets the other
/// flag.
pub fn hold(flag: &AtomicBool, gave_up: &AtomicBool) {
    hold_for(1_000_000, flag, gave_up);
}

/// Does as `hold` does, but gives up after `turns`.
pub fn hold_for(turns: u32, flag: &AtomicBool, gave_up: &AtomicBool) {
    for _ in 0..turns {
        if flag.load(Ordering::SeqCst) {
            return;
        }
        thread::yield_now();
    }
    gave_up.store(true, Ordering::SeqCst);
}

/// What the inputs of a test, their values and a link share. Each run, each addition and each link
/// asks for one growth.
#[derive(Drop)]
pub struct Watch {
    runs: AtomicU64,
    additions: AtomicU64,
    comparisons: AtomicU64,
    /// How many runs and how many additions an addition waits for.
    runs_awaited: AtomicU64,
    additions_awaited: AtomicU64,
    growths: AtomicU64,
    refusals: AtomicU64,
    first_refused: AtomicU64,
    end_of_refused: AtomicU64,
    refuses_additions: AtomicBool,
    /// The number of which runs are refused, and how many are.
    refused_input: (u64, u64),
    runs_of_it: AtomicU64,
    meets: bool,
    begun: [AtomicBool; 2],
    gave_up: AtomicBool,
}

impl Watch {
    fn made(
        alloc: Global,
        refused: Range<u64>,
        refused_input: (u64, u64),
        meets: bool,
    ) -> Result<Arc<Watch, Global>, OutOfMemory> {
        Ok(Arc::new(
            alloc,
            Watch {
                runs: AtomicU64::new(0),
                additions: AtomicU64::new(0),
                comparisons: AtomicU64::new(0),
                runs_awaited: AtomicU64::new(0),
                additions_awaited: AtomicU64::new(0),
                growths: AtomicU64::new(0),
                refusals: AtomicU64::new(0),
                first_refused: AtomicU64::new(refused.start),
                end_of_refused: AtomicU64::new(refused.end),
                refuses_additions: AtomicBool::new(false),
                refused_input,
                runs_of_it: AtomicU64::new(0),
                meets,
                begun: [AtomicBool::new(false), AtomicBool::new(false)],
                gave_up: AtomicBool::new(false),
            },
        )?)
    }

    /// It refuses nothing.
    pub fn shared(alloc: Global) -> Result<Arc<Watch, Global>, OutOfMemory> {
        Watch::made(alloc, 0..0, (0, 0), false)
    }

    /// It refuses the growths with these numbers, counted from 0.
    pub fn refusing(alloc: Global, growths: Range<u64>) -> Result<Arc<Watch, Global>, OutOfMemory> {
        Watch::made(alloc, growths, (0, 0), false)
    }

    /// It refuses the first `runs` runs of the input with this number.
    pub fn refusing_runs(
        alloc: Global,
        number: u64,
        runs: u64,
    ) -> Result<Arc<Watch, Global>, OutOfMemory> {
        Watch::made(alloc, 0..0, (number, runs), false)
    }

    /// The runs of the inputs 1 and 2 wait for one another, and give up after a while. It refuses
    /// nothing.
    pub fn meeting(alloc: Global) -> Result<Arc<Watch, Global>, OutOfMemory> {
        Watch::made(alloc, 0..0, (0, 0), true)
    }

    /// From now on growths are counted from 0 again, and those with these numbers are refused, and
    /// no others.
    pub fn refuse_growths(&self, growths: Range<u64>) {
        self.growths.store(0, Ordering::SeqCst);
        self.refusals.store(0, Ordering::SeqCst);
        self.first_refused.store(growths.start, Ordering::SeqCst);
        self.end_of_refused.store(growths.end, Ordering::SeqCst);
    }

    /// Whether each addition is refused from now on. A refused addition asks for no growth.
    pub fn refuse_additions(&self, refuses: bool) {
        self.refuses_additions.store(refuses, Ordering::SeqCst);
    }

    /// From now on an addition waits until this many runs and additions have begun, and gives up after a while.
    pub fn hold_additions(&self, runs: u64, additions: u64) {
        self.runs_awaited.store(runs, Ordering::SeqCst);
        self.additions_awaited.store(additions, Ordering::SeqCst);
    }

    /// Asks for one growth.
    pub fn grow(&self) -> Result<(), OutOfMemory> {
        let number = self.growths.fetch_add(1, Ordering::SeqCst);
        let first = self.first_refused.load(Ordering::SeqCst);
        let end = self.end_of_refused.load(Ordering::SeqCst);
        if (first..end).contains(&number) {
            self.refusals.fetch_add(1, Ordering::SeqCst);
            return Err(AllocError);
        }
        Ok(())
    }

    /// How many runs began, with those that were refused.
    pub fn runs(&self) -> u64 {
        self.runs.load(Ordering::SeqCst)
    }

    /// How many additions began, with those that were refused.
    pub fn additions(&self) -> u64 {
        self.additions.load(Ordering::SeqCst)
    }

    /// How many comparisons of two inputs were made.
    pub fn comparisons(&self) -> u64 {
        self.comparisons.load(Ordering::SeqCst)
    }

    /// How many growths were asked for since they were counted from 0.
    pub fn growths(&self) -> u64 {
        self.growths.load(Ordering::SeqCst)
    }

    /// How many of these growths were refused.
    pub fn refusals(&self) -> u64 {
        self.refusals.load(Ordering::SeqCst)
    }

    /// Whether a run or an addition waited for others in vain.
    pub fn gave_up(&self) -> bool {
        self.gave_up.load(Ordering::SeqCst)
    }

    /// A run of an input begins.
    pub(crate) fn begin_run(&self, number: u64) -> Result<(), OutOfMemory> {
        if self.meets {
            let own = usize::from(number == 2);
            self.begun[own].store(true, Ordering::SeqCst);
            hold(&self.begun[1 - own], &self.gave_up);
        }
        self.runs.fetch_add(1, Ordering::SeqCst);
        let (refused, runs) = self.refused_input;
        if number == refused && self.runs_of_it.fetch_add(1, Ordering::SeqCst) < runs {
            return Err(AllocError);
        }
        self.grow()
    }

    /// An addition begins.
    pub(crate) fn begin_addition(&self) -> Result<(), OutOfMemory> {
        self.additions.fetch_add(1, Ordering::SeqCst);
        self.wait_to_add();
        if self.refuses_additions.load(Ordering::SeqCst) {
            return Err(AllocError);
        }
        self.grow()
    }

    /// Two inputs are compared.
    pub(crate) fn compare(&self) {
        self.comparisons.fetch_add(1, Ordering::SeqCst);
    }

    /// Waits until the runs and additions that additions wait for have begun.
    fn wait_to_add(&self) {
        let runs = self.runs_awaited.load(Ordering::SeqCst);
        let additions = self.additions_awaited.load(Ordering::SeqCst);
        for _ in 0..1_000_000 {
            if self.runs() >= runs && self.additions() >= additions {
                return;
            }
            thread::yield_now();
        }
        self.gave_up.store(true, Ordering::SeqCst);
    }
}
