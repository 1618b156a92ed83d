//! `plain`: a query over a whole day file, by one thread.
ghost use Rattle.std.specs.Prelude.{◌≡◌, ◌<◌, ◌≤◌, List, All, IfErr, IfOk, length, map, nat_eq, Ok, Err, OnOk};
ghost use Rattle.std.specs.List.{IsDistinct};
ghost use Rattle.std.specs.List.Sorted.{IsPermutation};
ghost use Rattle.base.specs.declared.limits.TheConstants.{LONGEST_FILE};
ghost use Rattle.order_table.specs.Orders.{first_repeated};
ghost use Rattle.probe.specs.Pricing.{first_unknown, priced};
ghost use Rattle.probe.specs.Selection.{admits, kept};
ghost use Rattle.meaning.specs.Meaning.{Meaning};
ghost use Rattle.row_types.specs.SalesByPlace.{IsByPlace};
ghost use Rattle.time_and_sales.specs.Lent.{AreApart};
ghost use Rattle.time_and_sales.specs.Names.{names_by};
ghost use Rattle.answers.specs.Answers.{IsAnswer, IsAnswerToMessages, IsTextOfSales, told_by};
ghost use Rattle.day_rows.specs.DayRows.{IsStamped};
ghost use Rattle.day_rows.specs.Messages.{Placed};
ghost use Rattle.executor.specs.Steps.{AreOfDay, AreOfMessages, AreTradesOf, IfDay, IsReferenceFault};

use crate::OutOfMemory;
use crate::refused::Refused;
use answers::{Answer, DayFault, Text, text_of_bars, text_of_sales};
use bars::BarTable;
use base::limits::TRADE_LIMIT;
use broken_trades::Breaks;
use day_file::{DayFile, Frames};
use itch_messages::read;
use meaning::{Query, What, selection};
use morsel_rows::{MorselRows, Partition};
use order_table::{Built, OrderTable, Repeated};
use probe::{Priced, Sale, Selection, Unknown, keep, price_all};
use std::alloc::{AllocError, Allocator};
use time_and_sales::{Listing, Names};

/// The answer to a query over a whole day file: by one thread, with all rows at once.
pub fn plain<A: Allocator + Copy>(
    alloc: A,
    day: &DayFile<A>,
    query: &Query<A>,
) -> Result<Answer<A>, OutOfMemory>
    ensures { IfOk result (λ answer. IsAnswer day.now query.now (told_by answer)) }
{
    match text_of_day(alloc, day, query) {
        Ok(text) => Ok(Answer::Printed(text)),
        Err(Refused::Day(fault)) => Ok(Answer::Faulty(fault)),
        Err(Refused::OutOfMemory) => Err(AllocError),
    }
}

/// The text that a query asks for of a day file.
fn text_of_day<A: Allocator + Copy>(
    alloc: A,
    day: &DayFile<A>,
    query: &Query<A>,
) -> Result<Text<A>, Refused>
    ensures text { IfOk result (λ text. IsAnswer day.now query.now (Ok text)) }
    ensures fault { IfErr result (λ refused. IfDay refused (λ fault.
        IsAnswer day.now query.now (Err fault))) }
{
    let rows = collect(alloc, day.bytes(), query.as_of)?;
    let trades = trades_of(alloc, &rows)?;
    let names = Names::build(alloc, rows.directory())?;
    let selection = selection(alloc, query, &names)?;
    let breaks = rows.breaks().to_vec(alloc)?;
    drop(rows);
    let listing = list(trades, breaks, &selection);
    Ok(text_of(alloc, &listing, query, &names)?)
}

/// The rows of the messages of a day file that count up to a moment, in seconds since midnight, in one
/// partition: one walk over all frames.
fn collect<A: Allocator + Copy>(
    alloc: A,
    bytes: &[u8],
    as_of: Option<u32>,
) -> Result<MorselRows<A>, Refused>
    requires { length bytes.now ≤ LONGEST_FILE }
    ensures rows { IfOk result (λ rows. AreOfDay bytes.now as_of rows) }
    ensures fault { IfErr result (λ refused. IfDay refused (λ fault. (query : Meaning) →
        IsAnswer bytes.now query (Err fault))) }
{
    let mut rows = MorselRows::new(alloc, 1, 0)?;
    let mut left = Frames::of(0, bytes);
    while let Some(frame) = left.next() {
        match read(frame.body) {
            Ok(message) => rows.add_counted(as_of, frame.place, &message)?,
            Err(fault) => {
                // A truncation comes first, wherever it stands.
                left.finish()?;
                return Err(Refused::Day(DayFault::WrongLength {
                    place: frame.place,
                    kind: fault.kind,
                    length: fault.length,
                    wanted: fault.wanted,
                }));
            }
        }
    }
    // No frame is left: the file is whole, or truncated here.
    left.finish()?;
    Ok(rows)
}

/// The executions at their orders' prices, and the sales that have a price of their own.
fn trades_of<A: Allocator + Copy>(alloc: A, rows: &MorselRows<A>) -> Result<Vec<Sale, A>, Refused>
    requires { (messages : List Placed) × AreOfMessages messages rows.now }
    ensures trades { IfOk result (λ trades. (messages : List Placed) → AreOfMessages messages rows.now →
        AreTradesOf messages trades.items) }
    ensures fault { IfErr result (λ refused. IfDay refused (λ fault. (messages : List Placed) →
        AreOfMessages messages rows.now → (query : Meaning) → IsAnswerToMessages messages query (Err fault))) }
{
    let all = rows.partition(0).unwrap();
    let mut trades = price(alloc, all)?;
    trades.extend_from_slice(all.own_priced())?;
    Ok(trades)
}

/// Prices all executions by a table that the orders are copied into.
fn price<A: Allocator + Copy>(alloc: A, rows: &Partition<A>) -> Result<Vec<Sale, A>, Refused>
    requires orders { IsDistinct nat_eq (map (λ row. row.place) rows.now.orders) }
    requires executions { IsDistinct nat_eq (map (λ execution. execution.place) rows.now.executions) }
    ensures repeated { OnOk result (first_repeated rows.now.orders ≡ None) }
    ensures unknown { OnOk result (first_unknown rows.now.orders rows.now.executions ≡ None) }
    ensures sales { IfOk result (λ sales. sales.items ≡ priced rows.now.orders rows.now.executions) }
    ensures fault { IfErr result (λ refused. IfDay refused (λ fault.
        IsReferenceFault rows.now.orders rows.now.executions fault)) }
{
    let mut orders = Vec::new(alloc);
    rows.orders().append_to(&mut orders)?;
    let Built { table, repeated } = OrderTable::of_vec(orders);
    if let Some(Repeated { place, order_no }) = repeated {
        return Err(Refused::Day(DayFault::RepeatedReference { place, order_no }));
    }
    let Priced { sales, unknown } = price_all(alloc, &table, rows.executions())?;
    if let Some(Unknown { place, order_no }) = unknown {
        return Err(Refused::Day(DayFault::UnknownReference { place, order_no }));
    }
    Ok(sales)
}

/// The sales that no break removes and that the selection admits, by place.
fn list<A: Allocator + Copy>(
    mut trades: Vec<Sale, A>,
    breaks: Vec<u64, A>,
    selection: &Selection<A>,
) -> Listing<A>
    requires { AreApart (kept breaks.items (admits selection.now) trades.items) }
    ensures permutation { IsPermutation
        (kept breaks.items (admits selection.now) trades.items) result }
    ensures by_place { IsByPlace result }
{
    keep(&mut trades, &Breaks::from_rows(breaks), selection);
    Listing::of_sales(trades)
}

/// The text that is asked for of a listing: of its sales, or of their bars.
fn text_of<A: Allocator + Copy>(
    alloc: A,
    listing: &Listing<A>,
    query: &Query<A>,
    names: &Names<A>,
) -> Result<Text<A>, OutOfMemory>
    requires stamped { All (λ sale. IsStamped sale.time sale.locate) listing.now }
    requires shares { All (λ sale. 0 < sale.shares) listing.now }
    requires few { length listing.now < TRADE_LIMIT }
    ensures { IfOk result (λ text. IsTextOfSales query.now.what (names_by names.now) listing.now text) }
{
    let sales = listing.items();
    match query.what {
        What::Sales => text_of_sales(alloc, sales, names),
        What::Bars { width } => {
            let table = BarTable::of_sales(alloc, sales, width)?;
            text_of_bars(alloc, table.items(), names)
        }
    }
}
