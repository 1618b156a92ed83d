//! What a rehearsal answers.

/// What a pair of pipelines gives by two schedules.
#[derive(Drop)]
pub enum Rehearsed<T, K, S> {
    /// The total of the second pipeline, and what the link kept.
    Finished { total: T, kept: K },
    /// The link halted with this.
    Stopped { stop: S },
    /// The first task of the pipeline, which is 1 or 2, that has not arrived.
    Missing { pipeline: u8, task: u32 },
}
