//! What a pipeline reports of its runs.

/// What hears of each run. A gate may wait: a run starts only when its call of `before` returns.
pub trait Gate: Sync {
    /// Called before each run of a task, on the thread that will run it. Pipelines are 1 and 2. Round 0 is the task's
    /// first giving to a worker, 1 its second, and 2 the caller's own run of a task that no piece covers.
    fn before(&self, pipeline: u8, task: u32, round: u8);

    /// Called once a pipeline, by the caller's thread, after all tasks of the pipeline are covered
    /// and before it is totalled. It isn't called of a pipeline that didn't run.
    fn done(&self, pipeline: u8);
}

/// Lets each run pass at once.
pub struct FreeGate;

impl Gate for FreeGate {
    fn before(&self, _pipeline: u8, _task: u32, _round: u8) {}

    fn done(&self, _pipeline: u8) {}
}
