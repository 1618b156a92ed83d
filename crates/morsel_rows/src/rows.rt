//! The rows of one morsel.
ghost use Rattle.std.specs.Prelude.{◌≡◌, ℕ, ◌<◌, ◌≤◌, IfOk, MatchOption, OnErr, OnOk, Some, length, slice_get, vec_len};
ghost use Rattle.day_rows.specs.DayRows.{DayRows, counted_rows_at, joined, no_rows, told};
ghost use Rattle.morsel_rows.specs.MoreRows.{BecomesJoined};
ghost use Rattle.morsel_rows.specs.Partitions.{in_partitions, no_rows_in};
ghost use Rattle.morsel_rows.specs.TakenPartitions.{HasTaken, rows_taken_at};

use crate::OutOfMemory;
use crate::divisor::Divisor;
use crate::partition::Partition;
use crate::room::{Taken, shrink_all, with_rooms};
use day_rows::{Row, counts, row_of};
use itch_messages::Message;
use row_types::{DirectoryRow, Execution, OrderRow, Sale};
use std::alloc::{Allocator, Global};
use std::marker::Model;

/// What the messages of one morsel give: the rows of orders and trades in partitions, the others
/// together, each list in the order of the messages.
///
/// A partition takes memory from its first row on, if it takes no room before, so a morsel of few
/// rows has few lists, however many partitions there are.
#[derive(Drop)]
pub struct MorselRows<A: Allocator = Global> {
    /// How many partitions there are.
    parts: u32,
    /// The same. A row stands in the partition of what is left of its reference, or of its place, when that is divided.
    divisor: Divisor,
    /// Each partition that has taken memory, at its number; empty as long as there is none.
    partitions: Taken<A>,
    /// What is lent of a partition that has taken none.
    no_rows: Partition<A>,
    breaks: Vec<u64, A>,
    directory: Vec<DirectoryRow, A>,
}

impl<A: Allocator> Model for MorselRows<A> {
    ghost use Rattle.std.specs.Prelude.{◌≡◌, ◌<◌};
    ghost use Rattle.morsel_rows.specs.Partitions.{MorselRowsView, no_rows_in};
    ghost use Rattle.morsel_rows.specs.TakenPartitions.{partitions_seen};

    ghost Value = { MorselRowsView };

    ghost view = { λ rows. record {
      partitions = partitions_seen rows.parts rows.partitions.items;
      breaks = rows.breaks.items;
      directory = rows.directory.items;
    } };

    ghost invariant = { λ rows. (0 < rows.parts) × (rows.no_rows ≡ no_rows_in) × (rows.divisor ≡ rows.parts) };
}

impl<A: Allocator + Copy> MorselRows<A> {
    /// No rows, in this many partitions, each with room for `orders` order rows, which is taken at
    /// once if it is 16 or more. It is refused if there is no memory for them.
    pub fn new(alloc: A, parts: u32, orders: usize) -> Result<Self, OutOfMemory>
        requires { 0 < parts }
        ensures { IfOk result (λ rows. rows ≡ in_partitions parts no_rows) }
    {
        let partitions = with_rooms(alloc, parts, orders)?;
        Ok(MorselRows {
            parts,
            divisor: Divisor::new(parts),
            partitions,
            no_rows: Partition::new(alloc),
            breaks: Vec::new(alloc),
            directory: Vec::new(alloc),
        })
    }
}

impl<A: Allocator> MorselRows<A> {
    /// The partition of this number, from 0 on; none past the last.
    #[inline(always)]
    pub fn partition(&self, number: u32) -> Option<&Partition<A>>
        ensures { MatchOption result (length self.now.partitions ≤ number)
            (λ partition. slice_get self.now.partitions number ≡ Some partition.now) }
    {
        if number >= self.parts {
            return None;
        }
        let index = number as usize;
        if index >= self.partitions.len() {
            return Some(&self.no_rows);
        }
        match &self.partitions[index] {
            Some(partition) => Some(partition),
            None => Some(&self.no_rows),
        }
    }

    /// The match numbers that breaks name.
    #[inline(always)]
    pub fn breaks(&self) -> &[u64]
        ensures { result.now ≡ self.now.breaks }
    {
        self.breaks.as_slice()
    }

    /// The rows of the stock directory.
    #[inline(always)]
    pub fn directory(&self) -> &[DirectoryRow]
        ensures { result.now ≡ self.now.directory }
    {
        self.directory.as_slice()
    }
}

impl<A: Allocator + Copy> MorselRows<A> {
    /// Gives memory back that is taken for further rows, and all of partitions that have none.
    #[tactic(auto, using(crate::proofs::TakenRows::seen_same))]
    pub fn shrink_to_fit(&mut self)
        ensures { self.new ≡ self.old }
    {
        shrink_all(*self.breaks.allocator(), self.partitions.as_mut_slice());
        self.breaks.shrink_to_fit();
        self.directory.shrink_to_fit();
    }

    /// Adds the row of one more message, whose frame is at this place, in bytes from the file's
    /// start, if the message counts up to this moment, in seconds since midnight; one that is past
    /// it has no row. If there is no memory for it, the rows stay as they were.
    #[inline(always)]
    pub fn add_counted(
        &mut self,
        as_of: Option<u32>,
        place: u64,
        message: &Message,
    ) -> Result<(), OutOfMemory>
        ensures added { OnOk result ((n : ℕ) (rows : DayRows) → 0 < n →
            self.old ≡ in_partitions n rows →
            self.new ≡ in_partitions n (joined rows (counted_rows_at as_of place message.now))) }
        ensures unchanged { OnErr result (self.new ≡ self.old) }
    {
        if !counts(as_of, message) {
            return Ok(());
        }
        match row_of(place, message) {
            Some(row) => self.push(row),
            None => Ok(()),
        }
    }

    /// Adds one row.
    #[inline(always)]
    fn push(&mut self, row: Row) -> Result<(), OutOfMemory>
        ensures added { OnOk result (BecomesJoined (told (Some row)) self.old self.new) }
        ensures unchanged { OnErr result (self.new ≡ self.old) }
    {
        match row {
            Row::Order(row) => self.push_order(row),
            Row::Execution(row) => self.push_execution(row),
            Row::Sale(row) => self.push_sale(row),
            Row::Break(trade_no) => self.push_break(trade_no),
            Row::Directory(row) => self.push_directory_row(row),
        }
    }

    /// Adds an order reference to its partition.
    #[inline(always)]
    fn push_order(&mut self, row: OrderRow) -> Result<(), OutOfMemory>
        ensures added { OnOk result (BecomesJoined (told (Some (Row.Order row))) self.old self.new) }
        ensures unchanged { OnErr result (self.new ≡ self.old) }
    {
        let number = self.divisor.remainder(row.order_no) as usize;
        begin(&mut self.partitions, self.parts, number)?;
        match &mut self.partitions[number] {
            Some(part) => part.push_order(row),
            None => Ok(()),
        }
    }

    /// Adds an execution to the partition of its order reference.
    #[inline(always)]
    fn push_execution(&mut self, row: Execution) -> Result<(), OutOfMemory>
        ensures added { OnOk result (BecomesJoined (told (Some (Row.Execution row))) self.old self.new) }
        ensures unchanged { OnErr result (self.new ≡ self.old) }
    {
        let number = self.divisor.remainder(row.order_no) as usize;
        begin(&mut self.partitions, self.parts, number)?;
        match &mut self.partitions[number] {
            Some(part) => part.push_execution(row),
            None => Ok(()),
        }
    }

    /// Adds a sale to the partition of its place.
    #[inline(always)]
    fn push_sale(&mut self, row: Sale) -> Result<(), OutOfMemory>
        ensures added { OnOk result (BecomesJoined (told (Some (Row.Sale row))) self.old self.new) }
        ensures unchanged { OnErr result (self.new ≡ self.old) }
    {
        let number = self.divisor.remainder(row.place) as usize;
        begin(&mut self.partitions, self.parts, number)?;
        match &mut self.partitions[number] {
            Some(part) => part.push_sale(row),
            None => Ok(()),
        }
    }

    #[inline(always)]
    fn push_break(&mut self, trade_no: u64) -> Result<(), OutOfMemory>
        ensures added { OnOk result (BecomesJoined (told (Some (Row.Break trade_no))) self.old self.new) }
        ensures unchanged { OnErr result (self.new ≡ self.old) }
    {
        self.breaks.push(trade_no)?;
        Ok(())
    }

    #[inline(always)]
    fn push_directory_row(&mut self, row: DirectoryRow) -> Result<(), OutOfMemory>
        ensures added { OnOk result (BecomesJoined (told (Some (Row.Directory row))) self.old self.new) }
        ensures unchanged { OnErr result (self.new ≡ self.old) }
    {
        self.directory.push(row)?;
        Ok(())
    }
}

/// Sees to it that the partition of this number has taken memory: if it hasn't, it has no rows then.
#[inline(always)]
fn begin<A: Allocator + Copy>(
    partitions: &mut Taken<A>,
    parts: u32,
    number: usize,
) -> Result<(), OutOfMemory>
    requires { number < parts }
    ensures same { (other : ℕ) → rows_taken_at partitions.new.items other ≡ rows_taken_at partitions.old.items other }
    ensures begun { OnOk result (HasTaken partitions.new.items number) }
{
    if number < partitions.len() && partitions[number].is_some() {
        return Ok(());
    }
    put_empty(partitions, parts, number)
}

/// Puts a partition without rows at this number.
#[cold]
#[inline(never)]
fn put_empty<A: Allocator + Copy>(
    partitions: &mut Taken<A>,
    parts: u32,
    number: usize,
) -> Result<(), OutOfMemory>
    requires below { number < parts }
    requires none { rows_taken_at partitions.old.items number ≡ no_rows_in }
    ensures same { (other : ℕ) → rows_taken_at partitions.new.items other ≡ rows_taken_at partitions.old.items other }
    ensures begun { OnOk result (HasTaken partitions.new.items number) }
{
    let alloc = *partitions.allocator();
    let empty = Box::new(alloc, Partition::new(alloc))?;
    lengthen(partitions, parts as usize)?;
    partitions[number] = Some(empty);
    Ok(())
}

/// Makes a place for each of `parts` partitions.
#[tactic(auto, using(crate::proofs::TakenRows::none_more))]
fn lengthen<A: Allocator>(partitions: &mut Taken<A>, parts: usize) -> Result<(), OutOfMemory>
    ensures same { (number : ℕ) →
        rows_taken_at partitions.new.items number ≡ rows_taken_at partitions.old.items number }
    ensures long { OnOk result (parts ≤ vec_len partitions.new) }
{
    let missing = parts.saturating_sub(partitions.len());
    partitions.reserve(missing)?;
    for _ in 0..missing {
        partitions.push(None)?;
    }
    Ok(())
}
