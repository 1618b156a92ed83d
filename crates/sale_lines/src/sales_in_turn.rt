//! The sales of many listings, of a range of places, found and written one after another without memory.
ghost use Rattle.std.specs.Prelude.{◌≡◌, ◌≤◌, ◌<◌, IfOk, false, filter, length};
ghost use Rattle.base.specs.Least.{least_by};
ghost use Rattle.base.specs.declared.limits.TheConstants.{TIME_LIMIT};
ghost use Rattle.sinks.specs.Written.{IsWritten};
ghost use Rattle.time_and_sales.specs.Lent.{all_sales, lent};
ghost use Rattle.time_and_sales.specs.Names.{names_by};
ghost use Rattle.time_and_sales.specs.Ranges.{is_behind, is_in_first};
ghost use Rattle.time_and_sales.specs.Texts.{sale_line};

use base::earlier;
use row_types::Sale;
use sinks::{Sink, WriteFailed, put_all};
use time_and_sales::{ByPlace, Line, Listing, Names, behind, push_sale, within};

/// The sale of least place, of the sales of all listings that are in the first range and behind the last place.
pub(crate) fn next_sale(listings: &[&Listing], bounds: &[u64], last: Option<u64>) -> Option<Sale>
    ensures { result ≡ least_by (λ sale. sale.place) (filter (is_behind (λ sale. sale.place) last)
        (filter (is_in_first (λ sale. sale.place) bounds.now) (all_sales (lent listings.now)))) }
{
    let mut next = None;
    for listing in listings {
        let sales = within::<ByPlace, _>(listing.items(), bounds);
        let first = behind::<ByPlace, _>(sales, last).first().copied();
        next = earlier(next, first, |sale| sale.place);
    }
    next
}

/// Writes the line of a sale, and says how many bytes it has.
pub(crate) fn put_sale<K: Sink>(
    sink: &mut K,
    sale: &Sale,
    names: &Names,
) -> Result<u64, WriteFailed>
    requires time { sale.now.time < TIME_LIMIT }
    requires whole { K.has_failed sink.old ≡ false }
    ensures written { IsWritten K.Sink sink.old sink.new
        (sale_line sale.now (names_by names.now sale.now.locate)) result }
    ensures count { IfOk result (λ count. count ≡ length (sale_line sale.now (names_by names.now sale.now.locate))) }
    ensures short { length (sale_line sale.now (names_by names.now sale.now.locate)) ≤ 96 }
{
    let mut line = Line::new();
    push_sale(&mut line, sale, &names.name(sale.locate));
    put_all(sink, line.as_slice())?;
    Ok(line.len() as u64)
}
