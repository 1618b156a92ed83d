//! What a pair of pipelines answers.

/// What a pair of pipelines gives.
#[derive(Drop)]
pub enum Outcome<T, K, S> {
    /// The total of the second pipeline, and what the link kept.
    Finished { total: T, kept: K },
    /// The link halted with this.
    Stopped { stop: S },
}
