//! A table of bars.
ghost use Rattle.std.specs.Prelude.{◌≡◌, ℕ, ◌<◌, ◌≤◌, List, [], ◌∷◌, ◌++◌, length, map};
ghost use Rattle.std.specs.Prelude.{All, Contains, IfOk, OnErr, OnOk, false};
ghost use Rattle.row_types.specs.declared.trade.Sale.{Sale};
ghost use Rattle.time_and_sales.specs.Lent.{AreApart, all_sales, lent};
ghost use Rattle.std.specs.List.Sorted.{IsPermutation, IsSorted};
ghost use Rattle.std.specs.Ordering.{is_gt};
ghost use Rattle.std.specs.declared.cmp.Ordering.TheVariants.{Equal};
ghost use Rattle.bar.specs.OneBar.{CanJoin, IsTraded, key_cmp};
ghost use Rattle.bars.specs.Bars.{AllSumsFit, AreBarsOf, AreBarsOfEach, FitIfTraded, IsByKey, IsUnionOf, all_bars};
ghost use Rattle.bars.specs.Steps.{bar_of_one};
ghost use Rattle.bar.specs.declared.bar.Bar.{Bar as TheBar};

use crate::OutOfMemory;
use crate::interval::bar_of_sale;
use bar::Bar;
use base::limits::{SECONDS_OF_DAY, TRADE_LIMIT};
use row_types::Sale;
use std::alloc::{Allocator, Global};
use std::marker::Model;

/// Bars in the order of their locates, and of one locate by their starts.
#[derive(Drop)]
pub struct BarTable<A: Allocator = Global> {
    bars: Vec<Bar, A>,
}

impl<A: Allocator> Model for BarTable<A> {
    ghost use Rattle.std.specs.Prelude.{All, List};
    ghost use Rattle.bar.specs.declared.bar.Bar.{Bar as TheBar};
    ghost use Rattle.bar.specs.OneBar.{IsTraded};
    ghost use Rattle.bars.specs.Bars.{IsByKey};

    ghost Value = { List TheBar };

    ghost view = { λ table. table.bars.items };

    ghost invariant = { λ table.
        IsByKey table.bars.items × All IsTraded table.bars.items };
}

impl<A: Allocator> BarTable<A> {
    /// A table of no bars, in memory of `alloc`.
    #[tactic(auto, using(crate::proofs::JoinedTables::union_of_none))]
    pub fn empty(alloc: A) -> BarTable<A>
        ensures { result ≡ [] }
    {
        BarTable {
            bars: Vec::new(alloc),
        }
    }

    /// The bars, by locate and then by start.
    #[inline]
    pub fn items(&self) -> &[Bar]
        ensures value { result.now ≡ self.now }
        ensures by_key { IsByKey result.now }
        ensures traded { All IsTraded result.now }
    {
        self.bars.as_slice()
    }

    /// Gives the vector back, and takes no memory.
    pub fn into_vec(self) -> Vec<Bar, A>
        ensures value { result.items ≡ self }
        ensures by_key { IsByKey result.items }
        ensures traded { All IsTraded result.items }
    {
        let BarTable { bars } = self;
        bars
    }
}

impl<A: Allocator + Clone> BarTable<A> {
    /// The table of the sales, in whatever order they are, at a width in seconds. It is refused if
    /// there is no memory to sort a copy of them, or for the bars.
    pub fn of_sales(alloc: A, sales: &[Sale], width: u32) -> Result<BarTable<A>, OutOfMemory>
        requires places { AreApart sales.now }
        requires count { length sales.now < TRADE_LIMIT }
        requires shares { All (λ sale. 0 < sale.shares) sales.now }
        requires width { (1 ≤ width) × (width ≤ SECONDS_OF_DAY) }
        ensures bars { IfOk result (λ table. AreBarsOf width sales.now table) }
        ensures traded { IfOk result (λ table. All IsTraded table) }
    {
        let copy = Vec::from_slice(alloc.clone()?, sales)?;
        BarTable::of_vec(alloc, copy, width)
    }

    /// The table of the sales as `of_sales` gives it, but they are sorted in place, and no copy is
    /// made. It is refused if there is no memory for the bars.
    #[tactic(auto, using(std::proofs::lemmas::List::Sorted::length_permutation))]
    pub fn of_vec<B: Allocator>(
        alloc: A,
        mut sales: Vec<Sale, B>,
        width: u32,
    ) -> Result<BarTable<A>, OutOfMemory>
        requires places { AreApart sales.items }
        requires count { length sales.items < TRADE_LIMIT }
        requires shares { All (λ sale. 0 < sale.shares) sales.items }
        requires width { (1 ≤ width) × (width ≤ SECONDS_OF_DAY) }
        ensures bars { IfOk result (λ table. AreBarsOf width sales.items table) }
        ensures traded { IfOk result (λ table. All IsTraded table) }
    {
        let count = put_in_order(&mut sales, width);
        BarTable::of_sorted(alloc, sales.as_slice(), width, count)
    }

    /// The table of sales that are in order of the keys of their bars, with the capacity `room`.
    #[tactic(auto, using(crate::proofs::JoinedTables::union_of_none))]
    fn of_sorted(
        alloc: A,
        sales: &[Sale],
        width: u32,
        room: usize,
    ) -> Result<BarTable<A>, OutOfMemory>
        requires rise { IsSorted key_cmp (map (bar_of_one width) sales.now) }
        requires count { length sales.now < TRADE_LIMIT }
        requires traded { All (λ sale. IsTraded (bar_of_one width sale)) sales.now }
        requires width { (1 ≤ width) × (width ≤ SECONDS_OF_DAY) }
        ensures bars { IfOk result (λ table. AreBarsOf width sales.now table) }
        ensures traded { IfOk result (λ table. All IsTraded table) }
    {
        let mut bars = Vec::with_capacity(alloc, room)?;
        for sale in sales {
            add(&mut bars, bar_of_sale(sale, width))?;
        }
        Ok(BarTable { bars })
    }

    /// One table of the bars of all tables, in memory of `alloc`: those of one locate and start are
    /// joined. It is refused if there is no memory for them or to sort them.
    #[tactic(auto, using(std::proofs::lemmas::List::take_all))]
    pub fn merge_all<B: Allocator>(
        alloc: A,
        tables: &[&BarTable<B>],
    ) -> Result<BarTable<A>, OutOfMemory>
        requires sums { FitIfTraded (all_bars (lent tables.now)) }
        ensures union { IfOk result (λ all. IsUnionOf (all_bars (lent tables.now)) all) }
        ensures bars { IfOk result (λ all. (width : ℕ) (lists : List (List Sale)) →
            AreBarsOfEach width lists (lent tables.now) →
            AreBarsOf width (all_sales lists) all) }
        ensures traded { IfOk result (λ all. All IsTraded all) }
    {
        let mut bars = Vec::new(alloc);
        for table in tables {
            bars.extend_from_slice(table.items())?;
        }
        Ok(BarTable { bars: unite(bars)? })
    }

    /// Takes in the bars of `other`, and joins those of one locate and start. It is refused if
    /// there is no memory for the bars of both or to sort them, and then leaves the table as it was.
    /// Of a key that one of both alone has, the sums fit by the type of its bar.
    pub fn merge<B: Allocator>(&mut self, other: &BarTable<B>) -> Result<(), OutOfMemory>
        requires sums { AllSumsFit (self.old ++ other.now) }
        ensures merged { OnOk result (IsUnionOf (self.old ++ other.now) self.new) }
        ensures bars { OnOk result ((width : ℕ) (sales more : List Sale) →
            AreBarsOf width sales self.old → AreBarsOf width more other.now →
            AreBarsOf width (sales ++ more) self.new) }
        ensures traded { All IsTraded self.new }
        ensures unchanged { OnErr result (self.new ≡ self.old) }
    {
        let mut bars = Vec::from_slice(self.bars.allocator().clone()?, self.items())?;
        bars.extend_from_slice(other.items())?;
        self.bars = unite(bars)?;
        Ok(())
    }
}

/// Puts sales in order of the keys of their bars, and says how many bars there are, for room for them. That the bar of
/// each is traded is known where a sale is read, whose price is of 32 bits by its type.
#[tactic(auto, using(std::proofs::lemmas::List::take_all))]
fn put_in_order<A: Allocator>(sales: &mut Vec<Sale, A>, width: u32) -> usize
    requires width { 0 < width }
    requires shares { All (λ sale. 0 < sale.shares) sales.old.items }
    ensures permutation { IsPermutation sales.old.items sales.new.items }
    ensures rise { IsSorted key_cmp (map (bar_of_one width) sales.new.items) }
    ensures traded { All (λ sale. IsTraded (bar_of_one width sale)) sales.new.items }
{
    sales.sort_unstable_by_key(|sale| (sale.locate, sale.time));
    let mut count = 0usize;
    let mut last: Option<(u16, u64)> = None;
    let in_order = sales.as_slice();
    for sale in in_order {
        let bar = bar_of_sale(sale, width);
        let key = (bar.locate, bar.start);
        if last != Some(key) {
            count = count.saturating_add(1);
        }
        last = Some(key);
    }
    count
}

/// Puts in a bar that no bar of the table stands after.
#[inline]
#[tactic(auto, using(crate::proofs::LastBar::adding))]
fn add<A: Allocator>(bars: &mut Vec<Bar, A>, bar: Bar) -> Result<(), OutOfMemory>
    requires by_key { IsByKey bars.old.items }
    requires up_to { All (λ kept. is_gt (key_cmp kept bar) ≡ false) bars.old.items }
    requires sums { (kept : TheBar) → Contains bars.old.items kept → key_cmp kept bar ≡ Equal → CanJoin kept bar }
    ensures { OnOk result (IsUnionOf (bars.old.items ++ bar ∷ []) bars.new.items) }
{
    let Some(last) = bars.last_mut() else {
        bars.push(bar)?;
        return Ok(());
    };
    if last.has_key_of(&bar) {
        *last = last.join(&bar);
    } else {
        bars.push(bar)?;
    }
    Ok(())
}

/// The bars by key, those of one key made one.
fn unite<A: Allocator + Clone>(mut bars: Vec<Bar, A>) -> Result<Vec<Bar, A>, OutOfMemory>
    requires { AllSumsFit bars.items }
    ensures { IfOk result (λ all. IsUnionOf bars.items all.items) }
{
    bars.sort_by_key(|bar| (bar.locate, bar.start))?;
    join_all(bars.allocator().clone()?, bars.as_slice())
}

/// Sorted bars in one list, those of one key made one.
#[tactic(auto, using(std::proofs::lemmas::List::take_all, crate::proofs::JoinedTables::union_of_none))]
fn join_all<A: Allocator>(alloc: A, sorted: &[Bar]) -> Result<Vec<Bar, A>, OutOfMemory>
    requires rise { IsSorted key_cmp sorted.now }
    requires sums { AllSumsFit sorted.now }
    ensures { IfOk result (λ bars. IsUnionOf sorted.now bars.items) }
{
    let mut bars = Vec::with_capacity(alloc, sorted.len())?;
    for bar in sorted {
        add(&mut bars, *bar)?;
    }
    Ok(bars)
}
