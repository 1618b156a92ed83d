//! What a link answers.

/// What a link makes of a total.
#[derive(Drop)]
pub enum Linked<I, K, S> {
    /// The inputs of the second pipeline, and what is kept besides its total.
    Next { inputs: I, kept: K },
    /// There is no second pipeline.
    Halt { stop: S },
}
