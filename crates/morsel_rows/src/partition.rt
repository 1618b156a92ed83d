//! The rows of one partition.
ghost use Rattle.std.specs.Prelude.{◌≡◌, ◌↔◌, IfOk, IsTrue, OnErr, OnOk};
ghost use Rattle.std.specs.Cmp.{partial_equiv_from_equiv};
ghost use Rattle.morsel_rows.specs.MoreRows.{with_execution, with_order, with_sale};
ghost use Rattle.morsel_rows.specs.Partitions.{no_rows_in};
ghost use Rattle.morsel_rows.specs.SameRows.{is_same_partition, partition_equiv};

use crate::OutOfMemory;
use base::{copied, push};
use order_list::OrderList;
use row_types::{Execution, OrderRow, Sale};
use std::alloc::{Allocator, Global};
use std::marker::Model;

/// The rows of one partition, each list in the order of the messages that gave them.
#[derive(Drop)]
pub struct Partition<A: Allocator = Global> {
    orders: OrderList<A>,
    executions: Vec<Execution, A>,
    own_priced: Vec<Sale, A>,
}

impl<A: Allocator> Model for Partition<A> {
    ghost use Rattle.morsel_rows.specs.Partitions.{PartitionView};

    ghost Value = { PartitionView };

    ghost view = { λ partition. record {
      orders = partition.orders;
      executions = partition.executions.items;
      own_priced = partition.own_priced.items;
    } };
}

impl<A: Allocator + Copy> Partition<A> {
    /// No rows. It takes no memory.
    pub(crate) fn new(alloc: A) -> Self
        ensures { result ≡ no_rows_in }
    {
        Partition {
            orders: OrderList::new(alloc),
            executions: Vec::new(alloc),
            own_priced: Vec::new(alloc),
        }
    }

    /// The same rows, in memory for just them.
    pub(crate) fn copied(&self, alloc: A) -> Result<Self, OutOfMemory>
        ensures { IfOk result (λ copy. copy ≡ self.now) }
    {
        Ok(Partition {
            orders: self.orders.copied(alloc)?,
            executions: copied(alloc, self.executions.as_slice())?,
            own_priced: copied(alloc, self.own_priced.as_slice())?,
        })
    }

    /// Adds an order reference. Where there is no memory for it, the partition stays as it was.
    #[inline(always)]
    pub(crate) fn push_order(&mut self, row: OrderRow) -> Result<(), OutOfMemory>
        ensures added { OnOk result (self.new ≡ with_order row self.old) }
        ensures unchanged { OnErr result (self.new ≡ self.old) }
    {
        self.orders.push(row)
    }
}

impl<A: Allocator> Partition<A> {
    /// The order reference numbers that are given, with their prices.
    #[inline(always)]
    pub fn orders(&self) -> &OrderList<A>
        ensures { result.now ≡ self.now.orders }
    {
        &self.orders
    }

    /// The executions that their orders price.
    #[inline(always)]
    pub fn executions(&self) -> &[Execution]
        ensures { result.now ≡ self.now.executions }
    {
        self.executions.as_slice()
    }

    /// The sales that have a price of their own: printable executions with a price, trades and crosses.
    #[inline(always)]
    pub fn own_priced(&self) -> &[Sale]
        ensures { result.now ≡ self.now.own_priced }
    {
        self.own_priced.as_slice()
    }

    /// Whether there are no rows.
    #[inline(always)]
    pub fn is_empty(&self) -> bool
        ensures { IsTrue result ↔ (self.now ≡ no_rows_in) }
    {
        self.orders.len() == 0 && self.executions.is_empty() && self.own_priced.is_empty()
    }

    /// How many trades there are, of both kinds.
    pub(crate) fn trades(&self) -> usize {
        self.executions.len().saturating_add(self.own_priced.len())
    }

    /// Adds an execution. Where there is no memory for it, the partition stays as it was.
    #[inline(always)]
    pub(crate) fn push_execution(&mut self, row: Execution) -> Result<(), OutOfMemory>
        ensures added { OnOk result (self.new ≡ with_execution row self.old) }
        ensures unchanged { OnErr result (self.new ≡ self.old) }
    {
        push(&mut self.executions, row)
    }

    /// Adds a sale. Where there is no memory for it, the partition stays as it was.
    #[inline(always)]
    pub(crate) fn push_sale(&mut self, row: Sale) -> Result<(), OutOfMemory>
        ensures added { OnOk result (self.new ≡ with_sale row self.old) }
        ensures unchanged { OnErr result (self.new ≡ self.old) }
    {
        push(&mut self.own_priced, row)
    }

    /// Takes room for `orders` order rows more and for the trades that a day has with them: an execution to ten, a
    /// trade with a price of its own to forty. It is refused if there is no memory for it.
    pub(crate) fn reserve(&mut self, orders: usize) -> Result<(), OutOfMemory>
        ensures { self.new ≡ self.old }
    {
        self.orders.reserve(orders)?;
        self.executions.reserve_exact(orders / 10)?;
        self.own_priced.reserve_exact(orders / 40)
    }

    /// Gives memory back that is taken for further rows.
    pub(crate) fn shrink_to_fit(&mut self)
        ensures { self.new ≡ self.old }
    {
        self.orders.shrink_to_fit();
        self.executions.shrink_to_fit();
        self.own_priced.shrink_to_fit();
    }
}

/// Partitions are equal if they have the same rows in the same order.
impl<A: Allocator> PartialEq for Partition<A> {
    ghost eq = { is_same_partition };

    ghost laws = { partial_equiv_from_equiv partition_equiv };

    fn eq(&self, other: &Partition<A>) -> bool {
        self.orders == other.orders
            && self.executions == other.executions
            && self.own_priced == other.own_priced
    }
}

impl<A: Allocator> Eq for Partition<A> {
    ghost laws = { partition_equiv };
}
