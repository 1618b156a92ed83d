//! Prices executions by the orders that gave their references.
ghost use Rattle.std.specs.Prelude.{◌≡◌, ◌+◌, ◌≤◌, ◌++◌, IfOk, List, OnErr, OnOk, length, map};
ghost use Rattle.std.specs.Prelude.{nat_eq, option_map, vec_capacity, vec_len};
ghost use Rattle.std.specs.List.{IsDistinct};
ghost use Rattle.order_table.specs.declared.OrderRow.{OrderRow};
ghost use Rattle.order_table.specs.Orders.{IsTableOf};
ghost use Rattle.probe.specs.Pricing.{IsPricingOf};
ghost use Rattle.probe.specs.Pricing.{Execution as TheExecution, first_unknown, priced, sale_at, unknown_of};

use base::earlier;
use order_table::{Expected, Near, OrderTable, OutOfMemory, PricesExecutions};
use row_types::{Execution, Kind, Sale, Unknown};
use std::alloc::{Allocator, Global};

/// The sales of a list of executions, and the first of them that has no price.
#[derive(Drop)]
pub struct Priced<A: Allocator = Global> {
    /// Of the executions that have a price, in the list's order, those of zero shares too.
    pub sales: Vec<Sale, A>,
    /// The execution of least place that has none.
    pub unknown: Option<Unknown>,
}

fn sale_of(execution: &Execution, price: u32) -> Sale
    ensures { result ≡ sale_at execution.now price }
{
    Sale {
        place: execution.place,
        time: execution.time,
        locate: execution.locate,
        kind: Kind::E,
        price,
        shares: u64::from(execution.shares),
        trade_no: execution.trade_no,
    }
}

fn unknown_of(execution: &Execution) -> Unknown
    ensures { result ≡ unknown_of execution.now }
{
    Unknown {
        place: execution.place,
        order_no: execution.order_no,
    }
}

/// Prices each execution by the first row of its order reference, where that row stands before it.
/// Whether an execution is broken, or asked for, or has any shares makes no difference. It is
/// refused where there is no memory for the sales.
pub fn price_all<A: Allocator, T: Allocator + Clone>(
    alloc: A,
    table: &OrderTable<T>,
    executions: &[Execution],
) -> Result<Priced<A>, OutOfMemory>
    requires { IsDistinct nat_eq (map (λ execution. execution.place) executions.now) }
    ensures sales { IfOk result (λ outcome. (rows : List OrderRow) → IsTableOf rows table.now →
        outcome.sales.items ≡ priced rows executions.now) }
    ensures unknown { IfOk result (λ outcome. (rows : List OrderRow) → IsTableOf rows table.now →
        outcome.unknown ≡ option_map unknown_of (first_unknown rows executions.now)) }
{
    let mut priced = Priced {
        sales: Vec::with_capacity(alloc, executions.len())?,
        unknown: None,
    };
    price_into(&mut priced, table, executions)?;
    Ok(priced)
}

/// Prices executions in the same way, after others, whose sales and first one without a price are
/// handed in: they become those of all. If there is no memory for the sales, they stay as they were.
pub fn price_into<A: Allocator, P: PricesExecutions>(
    priced: &mut Priced<A>,
    prices: &P,
    executions: &[Execution],
) -> Result<(), OutOfMemory>
    ensures priced { OnOk result ((rows : List OrderRow) (before : List TheExecution) → P.PricesBy rows prices.now →
        IsPricingOf rows before priced.old → IsPricingOf rows (before ++ executions.now) priced.new) }
    ensures sales { OnErr result (priced.new.sales.items ≡ priced.old.sales.items) }
    ensures unknown { OnErr result (priced.new.unknown ≡ priced.old.unknown) }
{
    priced.sales.try_reserve(executions.len())?;
    price_each(priced, prices, executions);
    Ok(())
}

/// How many executions are looked up at a time.
const AT_A_TIME: usize = 16;

/// Where an execution is expected before that is known.
const ANYWHERE: Expected = Expected {
    list: 0,
    near: Near {
        row: 0,
        reference: 0,
    },
};

/// Prices executions as `price_into` does, in room that was taken for the sales of all of them.
fn price_each<A: Allocator, P: PricesExecutions>(
    priced: &mut Priced<A>,
    prices: &P,
    executions: &[Execution],
)
    requires room { vec_len priced.old.sales + length executions.now ≤ vec_capacity priced.old.sales }
    ensures { (rows : List OrderRow) (before : List TheExecution) → P.PricesBy rows prices.now →
        IsPricingOf rows before priced.old → IsPricingOf rows (before ++ executions.now) priced.new }
{
    let mut done = 0;
    while done < executions.len() {
        let count = AT_A_TIME.min(executions.len() - done);
        price_few(priced, prices, &executions[done..done + count]);
        done += count;
    }
}

/// Prices no more executions than are looked up at a time. First it is reckoned where each is expected, then all are
/// looked at there, and then they are priced: so a processor waits for the rows of several at once.
fn price_few<A: Allocator, P: PricesExecutions>(
    priced: &mut Priced<A>,
    prices: &P,
    executions: &[Execution],
)
    requires few { length executions.now ≤ AT_A_TIME }
    requires room { vec_len priced.old.sales + length executions.now ≤ vec_capacity priced.old.sales }
    ensures priced { (rows : List OrderRow) (before : List TheExecution) → P.PricesBy rows prices.now →
        IsPricingOf rows before priced.old → IsPricingOf rows (before ++ executions.now) priced.new }
    ensures len { vec_len priced.new.sales ≤ vec_len priced.old.sales + length executions.now }
    ensures capacity { vec_capacity priced.new.sales ≡ vec_capacity priced.old.sales }
{
    let mut expected = [ANYWHERE; AT_A_TIME];
    expect_each(&mut expected, prices, executions);
    look_each(&mut expected, prices, executions);
    price_looked(priced, prices, executions, &expected);
}

/// Reckons where each execution is expected.
fn expect_each<P: PricesExecutions>(
    expected: &mut [Expected],
    prices: &P,
    executions: &[Execution],
) {
    for (expected, execution) in expected.iter_mut().zip(executions) {
        *expected = prices.expect(execution.order_no);
    }
}

/// Looks at where each execution is expected.
fn look_each<P: PricesExecutions>(expected: &mut [Expected], prices: &P, executions: &[Execution]) {
    for (expected, execution) in expected.iter_mut().zip(executions) {
        *expected = prices.look(execution.order_no, *expected);
    }
}

/// Prices executions, each from where it is expected.
fn price_looked<A: Allocator, P: PricesExecutions>(
    priced: &mut Priced<A>,
    prices: &P,
    executions: &[Execution],
    expected: &[Expected; AT_A_TIME],
)
    requires few { length executions.now ≤ AT_A_TIME }
    requires room { vec_len priced.old.sales + length executions.now ≤ vec_capacity priced.old.sales }
    ensures priced { (rows : List OrderRow) (before : List TheExecution) → P.PricesBy rows prices.now →
        IsPricingOf rows before priced.old → IsPricingOf rows (before ++ executions.now) priced.new }
    ensures len { vec_len priced.new.sales ≤ vec_len priced.old.sales + length executions.now }
    ensures capacity { vec_capacity priced.new.sales ≡ vec_capacity priced.old.sales }
{
    for (at, execution) in executions.iter().enumerate() {
        match prices.price_before(execution.order_no, execution.place, expected[at]) {
            Some(price) => priced.sales.push_reserved(sale_of(execution, price)),
            None => {
                let other = Some(unknown_of(execution));
                priced.unknown = earlier(priced.unknown, other, |unknown| unknown.place);
            }
        }
    }
}
