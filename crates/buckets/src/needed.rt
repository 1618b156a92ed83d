//! The order rows of partitions that executions need.
ghost use Rattle.std.specs.Prelude.{◌≡◌, ℕ, ◌++◌, IfOk, List, OnErr, OnOk, filter, map};
ghost use Rattle.order_list.specs.Filters.{AreNeeded, IsFilterOf, is_needed};
ghost use Rattle.buckets.specs.BucketRows.{executed_in, ordered_in, rows_of_partitions};

use crate::OutOfMemory;
use morsel_rows::{OrderList, Partition};
use order_list::OrderFilter;
use order_table::OrderRow;
use row_types::Execution;
use std::alloc::Global;

/// Of the partitions' order rows those that executions need, and those that may repeat a reference.
pub(crate) fn needed_orders(
    alloc: Global,
    partitions: &[&Partition],
) -> Result<Vec<OrderRow>, OutOfMemory>
    ensures { IfOk result (λ rows. AreNeeded (executed_in (rows_of_partitions partitions.now))
        (rows_of_partitions partitions.now).orders rows.items) }
{
    let (orders, executions) = count_rows(partitions);
    let mut filter = OrderFilter::new(alloc, orders, executions)?;
    add_executions(&mut filter, partitions);
    add_orders(&mut filter, partitions);
    // Those that are executed, and the thirtieth part, or less, that the filter keeps for nothing.
    let room = executions.saturating_add(orders / 30).min(orders);
    let mut rows = Vec::with_capacity(alloc, room)?;
    for partition in partitions {
        append_needed(&filter, partition.orders(), &mut rows)?;
    }
    Ok(rows)
}

/// How many order rows and executions the partitions have, for room for them to be made.
fn count_rows(partitions: &[&Partition]) -> (usize, usize) {
    let mut orders = 0usize;
    let mut executions = 0usize;
    for partition in partitions {
        orders = orders.saturating_add(partition.orders().len());
        executions = executions.saturating_add(partition.executions().len());
    }
    (orders, executions)
}

/// Adds the partitions' executions.
fn add_executions(filter: &mut OrderFilter, partitions: &[&Partition])
    ensures { (executed ordered : List ℕ) → IsFilterOf executed ordered filter.old →
        IsFilterOf (executed ++ executed_in (rows_of_partitions partitions.now)) ordered filter.new }
{
    for partition in partitions {
        add_executions_of(filter, partition.executions());
    }
}

/// Adds executions.
fn add_executions_of(filter: &mut OrderFilter, executions: &[Execution])
    ensures { (executed ordered : List ℕ) → IsFilterOf executed ordered filter.old →
        IsFilterOf (executed ++ map (λ execution. execution.order_no) executions.now) ordered filter.new }
{
    for execution in executions {
        filter.add_execution(execution.order_no);
    }
}

/// Adds the partitions' orders.
fn add_orders(filter: &mut OrderFilter, partitions: &[&Partition])
    ensures { (executed ordered : List ℕ) → IsFilterOf executed ordered filter.old →
        IsFilterOf executed (ordered ++ ordered_in (rows_of_partitions partitions.now)) filter.new }
{
    for partition in partitions {
        add_orders_of(filter, partition.orders());
    }
}

/// Adds the orders of a list.
fn add_orders_of(filter: &mut OrderFilter, orders: &OrderList)
    ensures { (executed ordered : List ℕ) → IsFilterOf executed ordered filter.old →
        IsFilterOf executed (ordered ++ map (λ row. row.order_no) orders.now) filter.new }
{
    for row in orders.iter() {
        filter.add_order(row.order_no);
    }
}

/// Adds the rows of the list that are needed. It is refused if there is no memory for them.
fn append_needed(
    found: &OrderFilter,
    orders: &OrderList,
    rows: &mut Vec<OrderRow>,
) -> Result<(), OutOfMemory>
    ensures { OnOk result (rows.new.items
        ≡ rows.old.items ++ filter (λ row. is_needed found.now row.order_no) orders.now) }
{
    for row in orders.iter() {
        if found.needs(row.order_no) {
            rows.push(row)?;
        }
    }
    Ok(())
}
