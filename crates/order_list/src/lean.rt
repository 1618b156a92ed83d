//! Order rows in 10 bytes each.
ghost use Rattle.std.specs.Prelude.{◌≡◌, ◌^◌, ◌<◌, [], ◌∷◌, ◌++◌, if◌then◌else◌, length};
ghost use Rattle.std.specs.Prelude.{◌+◌, IfOk, IsTrue, List, OnErr, slice_index_or};
ghost use Rattle.std.specs.List.{AllPairs};
ghost use Rattle.std.specs.Option.{IfSome};
ghost use Rattle.order_list.specs.ShortRows.{IsOrigin, RiseTo, offset_of, row_of_lean};

use crate::OutOfMemory;
use crate::offsets::{LAST_START, Origin, offset_from};
use crate::rising_rows::RisingRows;
use crate::unaligned::Unaligned;
use base::{copied, push};
use row_types::OrderRow;
use std::alloc::Allocator;
use std::marker::Model;

/// How far below the first row's reference those of lean rows may lie: half of the range.
const BELOW: u64 = 1 << 23;

/// An order row in 10 bytes: its place and its reference count from an origin, in 24 bits each.
#[derive(Clone, Copy)]
pub(crate) struct Lean {
    /// From the lowest bit on the reference, the place, and 16 bits of the price.
    pub(crate) low: Unaligned,
    /// The upper 16 bits of the price.
    pub(crate) price_high: u16,
}

impl Lean {
    /// A row is near an origin if its place and its reference are less than 2^24 past it.
    #[inline(always)]
    fn of(origin: Origin, row: OrderRow) -> Option<Self>
        requires { IsOrigin origin }
        ensures { IfSome result (λ lean. row_of_lean origin lean ≡ row) }
    {
        match (
            offset_from(origin.order_no, row.order_no),
            offset_from(origin.place, row.place),
        ) {
            (Some(reference), Some(place)) => {
                let price_low = u64::from(row.price % (1 << 16));
                let low = u64::from(reference)
                    + u64::from(place) * (1 << 24)
                    + price_low * (1 << 48);
                Some(Lean {
                    low: Unaligned::of(low),
                    price_high: (row.price / (1 << 16)) as u16,
                })
            }
            _ => None,
        }
    }

    /// How far its reference lies past the origin's.
    #[inline(always)]
    pub(crate) fn offset(self) -> u32
        ensures offset { result ≡ offset_of self }
        ensures near { result < 2 ^ 24 }
    {
        (self.low.number() % (1 << 24)) as u32
    }

    /// The row with all its numbers.
    #[inline(always)]
    pub(crate) fn row(self, origin: Origin) -> OrderRow
        requires { IsOrigin origin }
        ensures { result ≡ row_of_lean origin self }
    {
        let low = self.low.number();
        OrderRow {
            place: origin.place + low / (1 << 24) % (1 << 24),
            order_no: origin.order_no + low % (1 << 24),
            price: u32::from(self.price_high) * (1 << 16) + (low / (1 << 48)) as u32,
        }
    }
}

/// An origin that a row is near to, and rows at later places, of references above its own or below.
fn around(row: OrderRow) -> Origin
    ensures { IsOrigin result }
{
    Origin {
        place: row.place.min(LAST_START),
        order_no: row.order_no.saturating_sub(BELOW).min(LAST_START),
    }
}

/// Whether rows rise with one more at their end. Without it they do if `rises` says so, to offsets below `above`.
#[inline(always)]
fn rise_with(rises: bool, above: u32, lean: Lean) -> bool
    ensures { IsTrue result → (rows : List Lean) → (IsTrue rises → RiseTo above rows)
        → RiseTo (offset_of lean + 1) (rows ++ lean ∷ []) }
{
    rises & (above <= lean.offset())
}

/// Order rows that are near the first one.
#[derive(Drop)]
pub(crate) struct LeanRows<A: Allocator> {
    pub(crate) origin: Origin,
    pub(crate) rows: Vec<Lean, A>,
    /// The least offset of a reference above those of all rows. It is kept here, since the last row often isn't in the
    /// processor's cache.
    above: u32,
    /// Whether each row has a greater reference than the row before it.
    rises: bool,
}

impl<A: Allocator> Model for LeanRows<A> {
    ghost use Rattle.std.specs.Prelude.{List, map, IsTrue};
    ghost use Rattle.row_types.specs.declared.order.OrderRow.{OrderRow as TheRow};
    ghost use Rattle.order_list.specs.ShortRows.{IsOrigin, RiseTo, row_of_lean};

    ghost Value = { List TheRow };

    ghost view = { λ lean. map (row_of_lean lean.origin) lean.rows.items };

    ghost invariant = { λ lean. IsOrigin lean.origin × (IsTrue lean.rises → RiseTo lean.above lean.rows.items) };
}

impl<A: Allocator> LeanRows<A> {
    /// No rows. It takes no memory.
    pub(crate) fn new(alloc: A) -> Self
        ensures { result ≡ [] }
    {
        LeanRows {
            origin: Origin {
                place: 0,
                order_no: 0,
            },
            rows: Vec::new(alloc),
            above: 0,
            rises: true,
        }
    }

    /// Takes room for `rows` more. It is refused if there is no memory for them.
    pub(crate) fn reserve(&mut self, rows: usize) -> Result<(), OutOfMemory>
        ensures { self.new ≡ self.old }
    {
        self.rows.reserve_exact(rows)
    }

    /// For how many rows there is room, those that are there among them.
    pub(crate) fn room(&self) -> usize {
        self.rows.capacity()
    }

    /// Lets go of all rows, and of their memory.
    pub(crate) fn clear(&mut self)
        ensures { self.new ≡ [] }
    {
        self.rows.clear();
        self.rows.shrink_to_fit();
    }

    /// Adds a row at the end, if it is near the first one, as the first one itself is. If there is no memory
    /// for it, the rows stay as they were.
    #[inline(always)]
    pub(crate) fn push_near(&mut self, row: OrderRow) -> Result<bool, OutOfMemory>
        ensures near { IfOk result (λ near. self.new ≡ (if near then self.old ++ row ∷ [] else self.old)) }
        ensures unchanged { OnErr result (self.new ≡ self.old) }
    {
        if self.rows.is_empty() {
            self.origin = around(row);
        }
        match Lean::of(self.origin, row) {
            Some(lean) => {
                let rises = rise_with(self.rises, self.above, lean);
                push(&mut self.rows, lean)?;
                self.rises = rises;
                self.above = lean.offset() + 1;
                Ok(true)
            }
            None => Ok(false),
        }
    }

    /// The same rows, in memory for just them.
    pub(crate) fn copied(&self, alloc: A) -> Result<Self, OutOfMemory>
        ensures { IfOk result (λ copy. copy ≡ self.now) }
    {
        Ok(LeanRows {
            origin: self.origin,
            rows: copied(alloc, self.rows.as_slice())?,
            above: self.above,
            rises: self.rises,
        })
    }

    /// Gives memory back that is taken for further rows.
    pub(crate) fn shrink_to_fit(&mut self)
        ensures { self.new ≡ self.old }
    {
        self.rows.shrink_to_fit();
    }

    /// How many rows there are.
    #[inline(always)]
    pub(crate) fn len(&self) -> usize
        ensures len { result ≡ length self.now }
        ensures few { result < 2 ^ 63 }
    {
        self.rows.len()
    }

    /// The row at this index.
    #[inline(always)]
    pub(crate) fn at(&self, index: usize) -> OrderRow
        requires { index < length self.now }
        ensures { result ≡ slice_index_or self.now index result }
    {
        self.rows[index].row(self.origin)
    }

    /// The rows where they are, if there are some and each has a greater reference than the row before it.
    pub(crate) fn rising(&self) -> Option<RisingRows<'_>>
        ensures rows { IfSome result (λ rising. rising ≡ self.now) }
        ensures rise { IfSome result (λ rising. AllPairs (λ x y. x.order_no < y.order_no) rising) }
    {
        if self.rises && !self.rows.is_empty() {
            Some(RisingRows::of(self.origin, self.rows.as_slice()))
        } else {
            None
        }
    }
}
