//! The calls that answer a query, each in a module below this one: a module and an item next to it can't
//! have the same name.
pub(crate) mod alone;
pub(crate) mod block_link;
pub(crate) mod ends;
pub(crate) mod made;
pub(crate) mod run;
pub(crate) mod run_blocks;
