//! The text of what all buckets list, made in parts while it is written.
ghost use Rattle.std.specs.Prelude.{◌≡◌, ◌<◌, ◌++◌, ℕ, All, IfOk, List, OnErr, OnOk, false, filter_map, length, map};
ghost use Rattle.std.specs.Arc.{arc_value};
ghost use Rattle.base.specs.declared.limits.TheConstants.{TIME_LIMIT, TRADE_LIMIT};
ghost use Rattle.row_types.specs.declared.trade.Sale.{Sale};
ghost use Rattle.sinks.specs.TextParts.{together};
ghost use Rattle.sinks.specs.Written.{IsWritten};
ghost use Rattle.time_and_sales.specs.Lent.{AreApart, all_sales, lent};
ghost use Rattle.time_and_sales.specs.Names.{names_by};
ghost use Rattle.bars.specs.Bars.{FitIfTraded, all_bars};
ghost use Rattle.meaning.specs.declared.query.What.TheVariants.{Bars, Sales};
ghost use Rattle.planning.specs.AllBuckets.{AreProductsOf, header_of, text_of_lists, text_of_products};
ghost use Rattle.planning.specs.AllBuckets.{listing_of};
ghost use Rattle.bars.specs.Steps.{united};
ghost use Rattle.buckets.specs.Products.{by_place};
ghost use Rattle.planning.specs.Lines.{IsNamed, texts_of};

use crate::OutOfMemory;
use crate::fault_and_tables::tables;
use crate::lines::Lines;
use bar_lines::{AllBars, BarLines};
use bars::BucketBars;
use buckets::Product;
use meaning::What;
use sale_lines::{AllSales, SaleLines};
use sinks::{Sink, WriteFailed, put_alone, put_parts};
use std::alloc::Global;
use std::marker::Brand;
use std::sync::{Arc, Wait};
use std::thread::Threads;
use time_and_sales::{Listing, Names};

/// Writes the text that is asked for of what all buckets list. At most `threads` threads make it while it is written;
/// it waits for them. It is refused, with nothing written, if there is no memory for what all parts need; what a part
/// needs is done without.
pub fn put_text<R: Threads + Wait + Sync, K: Sink>(
    rt: &R,
    alloc: Global,
    what: What,
    products: &[Arc<Product, Global>],
    names: &Names,
    threads: u32,
    sink: &mut K,
) -> Result<Result<(), WriteFailed>, OutOfMemory>
    requires products { (lists : List (List Sale)) × AreProductsOf what lists (map arc_value products.now) }
    requires whole { K.has_failed sink.old ≡ false }
    ensures written { IfOk result (IsWritten K.Sink sink.old sink.new
        (text_of_products what (names_by names.now) (map arc_value products.now))) }
    ensures flushed { IfOk result (λ written. OnOk written (K.HasFlushed sink.new)) }
    ensures refused { OnErr result (sink.new ≡ sink.old) }
{
    put_named::<Brand, R, K>(rt, alloc, what, products, names, threads, sink)
}

/// The same. J names the sales or the bars.
fn put_named<J: AllSales + AllBars, R: Threads + Wait + Sync, K: Sink>(
    rt: &R,
    alloc: Global,
    what: What,
    products: &[Arc<Product, Global>],
    names: &Names,
    threads: u32,
    sink: &mut K,
) -> Result<Result<(), WriteFailed>, OutOfMemory>
    requires named { IsNamed (map arc_value products.now) J.sales J.bars }
    requires products { (lists : List (List Sale)) × AreProductsOf what lists (map arc_value products.now) }
    requires whole { K.has_failed sink.old ≡ false }
    ensures written { IfOk result (IsWritten K.Sink sink.old sink.new
        (text_of_products what (names_by names.now) (map arc_value products.now))) }
    ensures flushed { IfOk result (λ written. OnOk written (K.HasFlushed sink.new)) }
    ensures refused { OnErr result (sink.new ≡ sink.old) }
{
    let listings = listings(alloc, products)?;
    let tables = tables(alloc, products)?;
    let lines = lines_of::<J>(alloc, what, &listings, &tables, names, threads)?;
    Ok(put_parts(rt, alloc, header(what), &lines, threads, sink))
}

/// The same on the caller's thread alone. It waits for nothing.
pub fn put_text_alone<K: Sink>(
    alloc: Global,
    what: What,
    products: &[Arc<Product, Global>],
    names: &Names,
    sink: &mut K,
) -> Result<Result<(), WriteFailed>, OutOfMemory>
    requires products { (lists : List (List Sale)) × AreProductsOf what lists (map arc_value products.now) }
    requires whole { K.has_failed sink.old ≡ false }
    ensures written { IfOk result (IsWritten K.Sink sink.old sink.new
        (text_of_products what (names_by names.now) (map arc_value products.now))) }
    ensures flushed { IfOk result (λ written. OnOk written (K.HasFlushed sink.new)) }
    ensures refused { OnErr result (sink.new ≡ sink.old) }
{
    put_named_alone::<Brand, K>(alloc, what, products, names, sink)
}

/// The same. J names the sales or the bars.
fn put_named_alone<J: AllSales + AllBars, K: Sink>(
    alloc: Global,
    what: What,
    products: &[Arc<Product, Global>],
    names: &Names,
    sink: &mut K,
) -> Result<Result<(), WriteFailed>, OutOfMemory>
    requires named { IsNamed (map arc_value products.now) J.sales J.bars }
    requires products { (lists : List (List Sale)) × AreProductsOf what lists (map arc_value products.now) }
    requires whole { K.has_failed sink.old ≡ false }
    ensures written { IfOk result (IsWritten K.Sink sink.old sink.new
        (text_of_products what (names_by names.now) (map arc_value products.now))) }
    ensures flushed { IfOk result (λ written. OnOk written (K.HasFlushed sink.new)) }
    ensures refused { OnErr result (sink.new ≡ sink.old) }
{
    let listings = listings(alloc, products)?;
    let tables = tables(alloc, products)?;
    let lines = lines_of::<J>(alloc, what, &listings, &tables, names, 1)?;
    Ok(put_alone(alloc, header(what), &lines, sink))
}

/// The first line of the text.
fn header(what: What) -> &'static [u8]
    ensures { result.now ≡ header_of what }
{
    match what {
        What::Sales => time_and_sales::header(),
        What::Bars { width: _ } => bars::header(),
    }
}

/// The lines of the listings, or of the tables, in parts for `threads` threads to make. J names the sales and the bars.
fn lines_of<'a, J: AllSales + AllBars>(
    alloc: Global,
    what: What,
    listings: &'a [&'a Listing],
    tables: &'a [&'a BucketBars],
    names: &'a Names,
    threads: u32,
) -> Result<Lines<'a, J>, OutOfMemory>
    requires named_sales { J.sales ≡ by_place (all_sales (lent listings.now)) }
    requires named_bars { J.bars ≡ united (all_bars (lent tables.now)) }
    requires sales { what ≡ Sales → AreApart (all_sales (lent listings.now))
        × All (λ sale. sale.time < TIME_LIMIT) (all_sales (lent listings.now))
        × (length (by_place (all_sales (lent listings.now))) < TRADE_LIMIT) }
    requires bars { (width : ℕ) → what ≡ Bars width → FitIfTraded (all_bars (lent tables.now))
        × (length (united (all_bars (lent tables.now))) < TRADE_LIMIT) }
    ensures { IfOk result (λ lines. header_of what ++ together (texts_of lines)
        ≡ text_of_lists what (names_by names.now) (lent listings.now) (lent tables.now)) }
{
    match what {
        What::Sales => {
            let lines = SaleLines::new(alloc, listings, names, threads)?;
            Ok(Lines::OfSales(lines))
        }
        What::Bars { width: _ } => {
            let lines = BarLines::new(alloc, tables, names, threads)?;
            Ok(Lines::OfBars(lines))
        }
    }
}

/// The listings among what is listed.
#[tactic(auto, using(std::proofs::lemmas::List::take_all))]
fn listings<'a>(
    alloc: Global,
    products: &'a [Arc<Product, Global>],
) -> Result<Vec<&'a Listing>, OutOfMemory>
    ensures { IfOk result (λ listings. lent listings.items ≡ filter_map listing_of (map arc_value products.now)) }
{
    let mut listings = Vec::with_capacity(alloc, products.len())?;
    for product in products {
        match &**product {
            Product::Listed(listing) => listings.push(listing)?,
            Product::Tabled(_) => {}
        }
    }
    Ok(listings)
}
