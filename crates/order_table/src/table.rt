//! The first row of each order reference.
ghost use Rattle.std.specs.Prelude.{◌≡◌, IfOk, List, map, nat_eq, option_map};
ghost use Rattle.std.specs.List.{IsDistinct};
ghost use Rattle.order_table.specs.Orders.{IsTableOf, first_repeated, repeated_of};
ghost use Rattle.order_table.specs.Orders.{kept_row, price_before, price_if_before};

use crate::OutOfMemory;
use crate::prices::{Expected, PricesExecutions};
use crate::sorted_rows::SortedRows;
use crate::sorting::{first_repeated, put_in_order, rises};
use row_types::OrderRow;
use std::alloc::{Allocator, Global};

/// For each order reference the row of least place that gives it.
#[derive(Drop)]
pub struct OrderTable<A: Allocator + Clone = Global> {
    rows: SortedRows<A>,
}

/// A row whose reference a row of smaller place gives.
#[derive(Clone, Copy, PartialEq, Eq)]
pub struct Repeated {
    /// In bytes from the file's start.
    pub place: u64,
    /// The reference that was given before.
    pub order_no: u64,
}

/// A table of rows, and the row of least place among them that repeats a reference.
#[derive(Drop)]
pub struct Built<A: Allocator + Clone = Global> {
    pub table: OrderTable<A>,
    pub repeated: Option<Repeated>,
}

impl<A: Allocator + Clone> OrderTable<A> {
    /// The table of the rows, in whatever order they are. They are copied, and it is refused if
    /// there is no memory for the copy.
    pub fn build(alloc: A, rows: &[OrderRow]) -> Result<Built<A>, OutOfMemory>
        requires { IsDistinct nat_eq (map (λ row. row.place) rows.now) }
        ensures table { IfOk result (λ built. IsTableOf rows.now built.table) }
        ensures repeated { IfOk result (λ built.
            built.repeated ≡ option_map repeated_of (first_repeated rows.now)) }
    {
        let mut kept = Vec::with_capacity(alloc, rows.len())?;
        kept.extend_from_slice(rows)?;
        Ok(OrderTable::of_vec(kept))
    }

    /// The table of the rows, as `build` makes it of a copy of them. If their references don't rise
    /// they are sorted in place, so it takes no memory.
    pub fn of_vec(mut rows: Vec<OrderRow, A>) -> Built<A>
        requires { IsDistinct nat_eq (map (λ row. row.place) rows.items) }
        ensures table { IsTableOf rows.items result.table }
        ensures repeated { result.repeated ≡ option_map repeated_of (first_repeated rows.items) }
    {
        if rises(&rows) {
            return Built {
                table: OrderTable {
                    rows: SortedRows::new(rows),
                },
                repeated: None,
            };
        }
        put_in_order(&mut rows);
        let repeated = first_repeated(&rows).map(|row| Repeated {
            place: row.place,
            order_no: row.order_no,
        });
        Built {
            table: OrderTable {
                rows: SortedRows::new(rows),
            },
            repeated,
        }
    }

    /// The price of an execution of the reference at the place: that of the reference's first row, wherever it was
    /// expected, if that row comes before the place. In ten-thousandths of a dollar.
    #[inline(always)]
    pub fn price_before(&self, order_no: u64, place: u64, expected: Expected) -> Option<u32>
        ensures kept { result ≡ price_if_before place (kept_row self.now order_no) }
        ensures first { (rows : List OrderRow) → IsTableOf rows self.now
            → result ≡ price_before rows order_no place }
    {
        match self.rows.first(order_no, expected.near) {
            Some(row) if row.place < place => Some(row.price),
            _ => None,
        }
    }
}

impl<A: Allocator + Clone> PricesExecutions for OrderTable<A> {
    ghost PricesBy = { IsTableOf };

    #[inline(always)]
    fn expect(&self, order_no: u64) -> Expected {
        Expected {
            list: 0,
            near: self.rows.expect(order_no),
        }
    }

    #[inline(always)]
    fn look(&self, order_no: u64, expected: Expected) -> Expected {
        Expected {
            list: 0,
            near: self.rows.look(order_no, expected.near),
        }
    }

    #[inline(always)]
    fn price_before(&self, order_no: u64, place: u64, expected: Expected) -> Option<u32> {
        OrderTable::price_before(self, order_no, place, expected)
    }
}
