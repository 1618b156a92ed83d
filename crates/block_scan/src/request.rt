//! What is asked of a source.

/// The most bytes that the source may have, the moment up to which messages count, in seconds since
/// midnight, the number of partitions that rows are kept in, and how many bytes a block is expected
/// to have, which only decides where blocks begin and how much room is taken at once.
#[derive(Clone, Copy, PartialEq, Eq)]
pub struct Request {
    pub(crate) limit: u64,
    pub(crate) as_of: Option<u32>,
    pub(crate) parts: u32,
    pub(crate) block: u64,
}
