//! What the stock directory says of a locate.

/// What a Stock Directory message says: the stock of a locate (TotalView-ITCH 5.0, section 1.2.1).
#[derive(Clone, Copy, PartialEq, Eq)]
pub struct DirectoryRow {
    /// The offset of the message's length prefix, in bytes from the file's start.
    pub place: u64,
    /// The stock locate of the message.
    pub locate: u16,
    /// Padded on the right with spaces.
    pub stock: [u8; 8],
}
