//! The sales of partitions.
ghost use Rattle.std.specs.Prelude.{◌≡◌, ◌++◌, [], All, IfOk, OnOk, List, map, nat_eq, option_map};
ghost use Rattle.std.specs.List.{IsDistinct};
ghost use Rattle.row_types.specs.declared.order.OrderRow.{OrderRow as TheRow};
ghost use Rattle.row_types.specs.declared.trade.Sale.{Sale as TheSale};
ghost use Rattle.probe.specs.Pricing.{first_unknown, priced, unknown_of};
ghost use Rattle.morsel_rows.specs.Partitions.{AreRowsByPlace, FitSixBytes};
ghost use Rattle.buckets.specs.BucketRows.{rows_of_partitions};
ghost use Rattle.buckets.specs.FoundRows.{kept_of, repeated_in, trades_in, unknown_in};

use crate::OutOfMemory;
use crate::bucket::Bucket;
use crate::needed::needed_orders;
use crate::rising_orders::RisingOrders;
use crate::sales_taken::TakesSales;
use base::earlier;
use morsel_rows::Partition;
use order_table::{Built, OrderTable, PricesExecutions, Repeated};
use probe::{Priced, Unknown, keep, price_into};
use row_types::Execution;
use std::alloc::Global;

/// The first rows of some that are at fault.
#[derive(Drop)]
pub struct Faults {
    /// The first order row of them that repeats a reference.
    pub repeated: Option<Repeated>,
    /// The first execution of them that has no price.
    pub unknown: Option<Unknown>,
}

/// Prices the executions of a bucket's partitions by their orders, and hands over the sales that are asked for: first
/// the executions at their prices, and then the sales that have a price of their own. They are made a partition at a
/// time, so that they are few at once.
pub(crate) fn trade<T: TakesSales>(
    alloc: Global,
    bucket: &Bucket,
    partitions: &[&Partition],
    into: &mut T,
) -> Result<Faults, OutOfMemory>
    requires rows { AreRowsByPlace (rows_of_partitions partitions.now) }
    requires none { T.Has [] into.old }
    ensures repeated { IfOk result (λ faults. faults.repeated ≡ repeated_in (rows_of_partitions partitions.now)) }
    ensures unknown { IfOk result (λ faults. faults.unknown ≡ unknown_in (rows_of_partitions partitions.now)) }
    ensures sales { OnOk result (T.Has (kept_of bucket.now (trades_in (rows_of_partitions partitions.now))) into.new) }
{
    into.reserve(count_trades(partitions))?;
    let faults = trade_executions(alloc, bucket, partitions, into)?;
    take_own_priced(alloc, bucket, partitions, into)?;
    Ok(faults)
}

/// Prices the executions of the partitions by their orders: searched where they lie, where their references rise, and
/// else in a table of those that are needed.
fn trade_executions<T: TakesSales>(
    alloc: Global,
    bucket: &Bucket,
    partitions: &[&Partition],
    into: &mut T,
) -> Result<Faults, OutOfMemory>
    requires places { IsDistinct nat_eq (map (λ row. row.place) (rows_of_partitions partitions.now).orders) }
    requires fit { All (λ execution. FitSixBytes execution.time execution.place)
        (rows_of_partitions partitions.now).executions }
    requires none { T.Has [] into.old }
    ensures repeated { IfOk result (λ faults. faults.repeated ≡ repeated_in (rows_of_partitions partitions.now)) }
    ensures unknown { IfOk result (λ faults. faults.unknown ≡ unknown_in (rows_of_partitions partitions.now)) }
    ensures sales { OnOk result (T.Has (kept_of bucket.now
        (priced (rows_of_partitions partitions.now).orders (rows_of_partitions partitions.now).executions)) into.new) }
{
    if let Some(orders) = RisingOrders::of(alloc, partitions)? {
        return Ok(Faults {
            repeated: None,
            unknown: take_priced(alloc, bucket, &orders, partitions, into)?,
        });
    }
    let Built { table, repeated } = OrderTable::of_vec(needed_orders(alloc, partitions)?);
    let unknown = take_priced(alloc, bucket, &table, partitions, into)?;
    Ok(Faults { repeated, unknown })
}

/// Hands over the sales of the partitions' executions at the prices of these orders, and gives the first execution that
/// has none.
fn take_priced<P: PricesExecutions, T: TakesSales>(
    alloc: Global,
    bucket: &Bucket,
    prices: &P,
    partitions: &[&Partition],
    into: &mut T,
) -> Result<Option<Unknown>, OutOfMemory>
    requires priced { (rows : List TheRow) × P.PricesBy rows prices.now }
    requires fit { All (λ execution. FitSixBytes execution.time execution.place)
        (rows_of_partitions partitions.now).executions }
    requires none { T.Has [] into.old }
    ensures unknown { IfOk result (λ unknown. (rows : List TheRow) → P.PricesBy rows prices.now →
        unknown ≡ option_map unknown_of (first_unknown rows (rows_of_partitions partitions.now).executions)) }
    ensures sales { OnOk result ((rows : List TheRow) → P.PricesBy rows prices.now →
        T.Has (kept_of bucket.now (priced rows (rows_of_partitions partitions.now).executions)) into.new) }
{
    let mut unknown = None;
    let mut room = Priced {
        sales: Vec::new(alloc),
        unknown: None,
    };
    for partition in partitions {
        let found = take_executions(bucket, prices, partition.executions(), &mut room, into)?;
        unknown = earlier(unknown, found, |unknown| unknown.place);
    }
    Ok(unknown)
}

/// Hands over the sales of executions, and gives the first of them that has no price. What `room` has is let go.
fn take_executions<P: PricesExecutions, T: TakesSales>(
    bucket: &Bucket,
    prices: &P,
    executions: &[Execution],
    room: &mut Priced,
    into: &mut T,
) -> Result<Option<Unknown>, OutOfMemory>
    requires priced { (rows : List TheRow) × P.PricesBy rows prices.now }
    requires fit { All (λ execution. FitSixBytes execution.time execution.place) executions.now }
    ensures unknown { IfOk result (λ unknown. (rows : List TheRow) → P.PricesBy rows prices.now →
        unknown ≡ option_map unknown_of (first_unknown rows executions.now)) }
    ensures sales { OnOk result ((rows : List TheRow) (before : List TheSale) → P.PricesBy rows prices.now →
        T.Has before into.old → T.Has (before ++ kept_of bucket.now (priced rows executions.now)) into.new) }
{
    room.sales.clear();
    room.unknown = None;
    price_into(room, prices, executions)?;
    keep(&mut room.sales, bucket.breaks(), bucket.selection());
    into.take(room.sales.as_slice())?;
    Ok(room.unknown)
}

/// Hands over the sales of the partitions that have a price of their own.
fn take_own_priced<T: TakesSales>(
    alloc: Global,
    bucket: &Bucket,
    partitions: &[&Partition],
    into: &mut T,
) -> Result<(), OutOfMemory>
    requires { All (λ sale. FitSixBytes sale.time sale.place) (rows_of_partitions partitions.now).own_priced }
    ensures { OnOk result ((before : List TheSale) → T.Has before into.old →
        T.Has (before ++ kept_of bucket.now (rows_of_partitions partitions.now).own_priced) into.new) }
{
    let mut sales = Vec::new(alloc);
    for partition in partitions {
        sales.clear();
        sales.extend_from_slice(partition.own_priced())?;
        keep(&mut sales, bucket.breaks(), bucket.selection());
        into.take(sales.as_slice())?;
    }
    Ok(())
}

/// How many trades the partitions have, for room for them to be made.
fn count_trades(partitions: &[&Partition]) -> usize {
    let mut count = 0usize;
    for partition in partitions {
        count = count.saturating_add(partition.executions().len());
        count = count.saturating_add(partition.own_priced().len());
    }
    count
}
