//! Tests of how bytes are read and rows are kept, where no clause speaks: bodies byte by byte, frames, cuts and
//! batches; readers and files that fail or give few bytes a call; morsels that are gathered in any order; rows, texts
//! and queries. Each call succeeds once there is memory, and leaves what stood if it is refused, each allocation in
//! turn; lists take as many bytes as they say, rows are searched where they lie, and few orders are kept for nothing. A
//! text in parts is whole once there are parts, whatever is refused, and no part is written without memory for nothing.
//! What is shown here and proved nowhere, `docs/PROOFS.md` lists.
#![tactic(auto)]

#[cfg(test)]
mod batches;
#[cfg(test)]
mod blocks;
#[cfg(test)]
mod bodies;
#[cfg(test)]
mod cuts;
#[cfg(test)]
mod days;
#[cfg(test)]
mod letters;
#[cfg(test)]
mod lines;
#[cfg(test)]
mod lines_of_bars;
#[cfg(test)]
mod listings;
#[cfg(test)]
mod order_lists;
#[cfg(test)]
mod orders;
#[cfg(test)]
mod parts;
#[cfg(test)]
mod queries;
#[cfg(test)]
mod room;
#[cfg(test)]
mod rows;
#[cfg(test)]
mod sales;
#[cfg(test)]
mod scans;
#[cfg(test)]
mod tables;
