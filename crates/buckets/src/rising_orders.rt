//! Order rows that are searched where they lie.
ghost use Rattle.std.specs.Prelude.{◌≡◌, ◌++◌, ◌<◌, All, IfOk, IsTrue, List, None, OnOk};
ghost use Rattle.std.specs.List.{AllPairs};
ghost use Rattle.std.specs.Option.{IfSome};
ghost use Rattle.row_types.specs.declared.order.OrderRow.{OrderRow};
ghost use Rattle.order_table.specs.Orders.{first_repeated, first_row};
ghost use Rattle.buckets.specs.BucketRows.{rows_of_partitions};
ghost use Rattle.buckets.specs.RisingLists.{AreRising, IsAbove, rows_of_lists};

use crate::OutOfMemory;
use morsel_rows::{OrderList, Partition, RisingRows};
use order_table::{Expected, OrderRow, PricesExecutions, Referenced, Spread, point_of};
use std::alloc::Global;
use std::marker::Model;

/// The rows of one list, one or more, and the reference of the last, which is the greatest.
#[derive(Drop)]
struct RisingList<'a> {
    last: u64,
    rows: RisingRows<'a>,
}

impl<'a> Referenced for RisingList<'a> {
    ghost reference_of = { λ list. list.last };

    #[inline(always)]
    fn reference(&self) -> u64 {
        self.last
    }
}

/// The order rows of partitions, in lists whose references rise, each list above those before it.
#[derive(Drop)]
pub(crate) struct RisingOrders<'a> {
    lists: Vec<RisingList<'a>>,
    spread: Spread,
}

impl<'a> Model for RisingOrders<'a> {
    ghost Value = { List OrderRow };

    ghost view = { λ orders. rows_of_lists orders.lists.items };

    ghost invariant = { λ orders. AreRising orders.lists.items };
}

impl<'a> RisingOrders<'a> {
    /// The orders of the partitions, if the references of each list rise and each list is above those before it.
    pub(crate) fn of(
        alloc: Global,
        partitions: &[&'a Partition],
    ) -> Result<Option<Self>, OutOfMemory>
        ensures rows { IfOk result (λ found. IfSome found (λ orders.
            orders ≡ (rows_of_partitions partitions.now).orders)) }
        ensures repeated { IfOk result (λ found. IfSome found (λ orders.
            first_repeated (rows_of_partitions partitions.now).orders ≡ None)) }
    {
        let mut lists = Vec::with_capacity(alloc, partitions.len())?;
        for partition in partitions {
            if !add(&mut lists, partition.orders())? {
                return Ok(None);
            }
        }
        let spread = spread_of(lists.as_slice());
        Ok(Some(RisingOrders { lists, spread }))
    }

    /// The row that gives the reference, searched from where it is expected.
    #[inline(always)]
    fn first(&self, order_no: u64, expected: Expected) -> Option<OrderRow>
        ensures { result ≡ first_row self.now order_no }
    {
        let at = point_of(self.lists.as_slice(), expected.list, order_no);
        match self.lists.get(at) {
            Some(list) => list.rows.first(order_no, expected.near),
            None => None,
        }
    }
}

impl<'a> PricesExecutions for RisingOrders<'a> {
    ghost PricesBy = { λ rows orders. orders ≡ rows };

    #[inline(always)]
    fn expect(&self, order_no: u64) -> Expected {
        let list = self.spread.expect_point(self.lists.as_slice(), order_no);
        match self.lists.get(list) {
            Some(rising) => Expected {
                list,
                near: rising.rows.expect(order_no),
            },
            None => Expected {
                list,
                near: self.spread.expect(order_no),
            },
        }
    }

    #[inline(always)]
    fn look(&self, order_no: u64, expected: Expected) -> Expected {
        match self.lists.get(expected.list) {
            Some(rising) => Expected {
                list: expected.list,
                near: rising.rows.look(order_no, expected.near),
            },
            None => expected,
        }
    }

    #[inline(always)]
    fn price_before(&self, order_no: u64, place: u64, expected: Expected) -> Option<u32> {
        match self.first(order_no, expected) {
            Some(row) if row.place < place => Some(row.price),
            _ => None,
        }
    }
}

/// Adds the rows of a list, if their references rise above those so far, and says whether they do.
/// A list without rows adds nothing.
fn add<'a>(lists: &mut Vec<RisingList<'a>>, orders: &'a OrderList) -> Result<bool, OutOfMemory>
    requires { AreRising lists.old.items }
    ensures rising { IfOk result (λ added. IsTrue added → AreRising lists.new.items) }
    ensures rows { IfOk result (λ added. IsTrue added →
        rows_of_lists lists.new.items ≡ rows_of_lists lists.old.items ++ orders.now) }
{
    if orders.len() == 0 {
        return Ok(true);
    }
    match orders.rising() {
        Some(rows) if are_below(lists.as_slice(), rows.least()) => {
            let last = rows.greatest();
            lists.push(RisingList { last, rows })?;
            Ok(true)
        }
        _ => Ok(false),
    }
}

/// Whether the reference is above all in the lists.
fn are_below(lists: &[RisingList<'_>], order_no: u64) -> bool
    requires { AllPairs IsAbove lists.now }
    ensures { IsTrue result → All (λ list. list.last < order_no) lists.now }
{
    lists.is_empty() || lists[lists.len() - 1].last < order_no
}

/// How many lists there are to a reference.
fn spread_of(lists: &[RisingList<'_>]) -> Spread {
    match (lists.first(), lists.last()) {
        (Some(first), Some(last)) => Spread::of(lists.len(), first.last, last.last),
        _ => Spread::of(0, 0, 0),
    }
}
