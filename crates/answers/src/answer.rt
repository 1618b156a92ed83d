//! The answer to a query, as a value.
use crate::text::Text;
use outcomes::DayFault;
use std::alloc::{Allocator, Global};

/// The answer to a query.
#[derive(Drop)]
pub enum Answer<A: Allocator = Global> {
    /// The text that was asked for.
    Printed(Text<A>),
    /// The file's one fault.
    Faulty(DayFault),
}
