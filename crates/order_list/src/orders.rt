//! Order rows in little memory.
ghost use Rattle.std.specs.Prelude.{◌≡◌, ◌<◌, [], ◌∷◌, ◌++◌, length, IfOk, OnErr, OnOk, slice_index_or};
ghost use Rattle.std.specs.Cmp.{partial_equiv_from_equiv};
ghost use Rattle.std.specs.List.{AllPairs};
ghost use Rattle.std.specs.Option.{IfSome};
ghost use Rattle.order_list.specs.SameOrders.{are_same_orders, orders_equiv};

use crate::OutOfMemory;
use crate::lean::LeanRows;
use crate::order_rows::OrderRows;
use crate::rising_rows::RisingRows;
use crate::wide::Wide;
use base::{copied, push};
use row_types::OrderRow;
use std::alloc::{Allocator, Global};
use std::marker::Model;

/// Order rows, in the order in which they were pushed.
///
/// A row takes 10 bytes as long as each is near the first one: its place less than 16 MiB past the first one's,
/// which is so in a block, and its reference less than 2^23 from the first one's, which is so on a day whose
/// references rise. The first row that isn't near, and all that follow, take 20.
#[derive(Drop)]
pub struct OrderList<A: Allocator = Global> {
    lean: LeanRows<A>,
    /// The first row that isn't lean, and all that follow it. If only one is before it, that is here, too.
    wide: Vec<Wide, A>,
}

impl<A: Allocator> Model for OrderList<A> {
    ghost use Rattle.std.specs.Prelude.{List, ◌++◌, map};
    ghost use Rattle.row_types.specs.declared.order.OrderRow.{OrderRow};
    ghost use Rattle.order_list.specs.ShortRows.{row_of_wide};

    ghost Value = { List OrderRow };

    ghost view = { λ list. list.lean ++ map row_of_wide list.wide.items };
}

impl<A: Allocator + Copy> OrderList<A> {
    /// No rows. It takes no memory.
    pub fn new(alloc: A) -> Self
        ensures { result ≡ [] }
    {
        OrderList {
            lean: LeanRows::new(alloc),
            wide: Vec::new(alloc),
        }
    }

    /// The same rows, in memory for just them.
    pub fn copied(&self, alloc: A) -> Result<Self, OutOfMemory>
        ensures { IfOk result (λ copy. copy ≡ self.now) }
    {
        Ok(OrderList {
            lean: self.lean.copied(alloc)?,
            wide: copied(alloc, self.wide.as_slice())?,
        })
    }
}

impl<A: Allocator> OrderList<A> {
    /// Takes room for this many lean rows more. It is refused if there is no memory for them.
    pub fn reserve(&mut self, rows: usize) -> Result<(), OutOfMemory>
        ensures { self.new ≡ self.old }
    {
        self.lean.reserve(rows)
    }

    /// Adds a row at the end. If there is no memory for it, the list stays as it was.
    #[inline(always)]
    pub fn push(&mut self, row: OrderRow) -> Result<(), OutOfMemory>
        ensures added { OnOk result (self.new ≡ self.old ++ row ∷ []) }
        ensures unchanged { OnErr result (self.new ≡ self.old) }
    {
        if self.wide.is_empty() {
            if self.lean.push_near(row)? {
                return Ok(());
            }
            self.begin_wide()?;
        }
        push(&mut self.wide, Wide::of(row))
    }

    /// Takes room for wide rows, in place of what lean ones leave. If there is but one lean row, as where references
    /// are any numbers, it is made wide, so that no memory of lean rows is left between that of others.
    #[cold]
    #[inline(never)]
    fn begin_wide(&mut self) -> Result<(), OutOfMemory>
        ensures { self.new ≡ self.old }
    {
        let room = self.lean.room();
        if self.lean.len() == 1 && self.wide.is_empty() {
            self.wide.reserve_exact(room)?;
            push(&mut self.wide, Wide::of(self.lean.at(0)))?;
            self.lean.clear();
            return Ok(());
        }
        self.wide
            .reserve_exact(room.saturating_sub(self.lean.len()))?;
        self.lean.shrink_to_fit();
        Ok(())
    }

    /// Gives memory back that is taken for further rows.
    pub fn shrink_to_fit(&mut self)
        ensures { self.new ≡ self.old }
    {
        self.lean.shrink_to_fit();
        self.wide.shrink_to_fit();
    }

    /// How many rows there are.
    #[inline(always)]
    pub fn len(&self) -> usize
        ensures { result ≡ length self.now }
    {
        self.lean.len() + self.wide.len()
    }

    /// The rows, in the order in which they were pushed.
    #[inline(always)]
    pub fn iter(&self) -> OrderRows<'_>
        ensures { result ≡ self.now }
    {
        OrderRows {
            origin: self.lean.origin,
            lean: self.lean.rows.as_slice(),
            wide: self.wide.as_slice(),
        }
    }

    /// The rows where they are, if there are some, all are lean, and each has a greater reference
    /// than the row before it.
    pub fn rising(&self) -> Option<RisingRows<'_>>
        ensures rows { IfSome result (λ rising. rising ≡ self.now) }
        ensures rise { IfSome result (λ rising. AllPairs (λ x y. x.order_no < y.order_no) rising) }
    {
        if self.wide.is_empty() {
            self.lean.rising()
        } else {
            None
        }
    }

    /// Adds the rows to a vector. If there is no memory for them, the vector stays as it was.
    pub fn append_to<B: Allocator>(&self, out: &mut Vec<OrderRow, B>) -> Result<(), OutOfMemory>
        ensures appended { OnOk result (out.new.items ≡ out.old.items ++ self.now) }
        ensures unchanged { OnErr result (out.new.items ≡ out.old.items) }
    {
        out.try_reserve(self.len())?;
        for index in 0..self.len() {
            out.push_reserved(self.at(index));
        }
        Ok(())
    }

    /// The row at this index.
    #[inline(always)]
    pub fn at(&self, index: usize) -> OrderRow
        requires { index < length self.now }
        ensures { result ≡ slice_index_or self.now index result }
    {
        if index < self.lean.len() {
            self.lean.at(index)
        } else {
            self.wide[index - self.lean.len()].row()
        }
    }
}

/// Lists are equal if they have the same rows in the same order.
impl<A: Allocator> PartialEq for OrderList<A> {
    ghost eq = { are_same_orders };

    ghost laws = { partial_equiv_from_equiv orders_equiv };

    fn eq(&self, other: &OrderList<A>) -> bool {
        if self.len() != other.len() {
            return false;
        }
        for index in 0..self.len() {
            if self.at(index) != other.at(index) {
                return false;
            }
        }
        true
    }
}

impl<A: Allocator> Eq for OrderList<A> {
    ghost laws = { orders_equiv };
}
