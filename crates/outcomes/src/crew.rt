//! How many threads work.
ghost use Rattle.std.specs.Prelude.{◌≡◌, ◌<◌, ◌≤◌};
ghost use Rattle.base.specs.declared.limits.TheConstants.{MOST_WORKERS, MOST_GATHERERS};

/// How many threads work on a pair of pipelines.
#[derive(Clone, Copy)]
pub struct Crew {
    /// The worker threads of each pipeline, 1 to 64.
    pub workers: u32,
    /// The gatherings of each pipeline, 1 to 8. The caller's thread has one of them, and each other one
    /// has a thread of its own.
    pub gatherers: u32,
    ghost workers_in_range: { (0 < workers) × (workers ≤ MOST_WORKERS) },
    ghost gatherers_in_range: { (0 < gatherers) × (gatherers ≤ MOST_GATHERERS) },
}
