//! What a bar needs of a sale.
ghost use Rattle.std.specs.Prelude.{◌≡◌, ℕ, ◌<◌, IfOk, map};
ghost use Rattle.std.specs.List.Sorted.{IsNonDecreasingBy, IsPermutation};
ghost use Rattle.bar.specs.OneBar.{IsTraded};
ghost use Rattle.bars.specs.Steps.{HasTick, bar_at, bar_of_tick, in_seconds, sale_of_tick};

use crate::OutOfMemory;
use base::limits::NANOSECONDS;
use row_types::{Kind, Sale};
use std::alloc::Global;

/// How many ticks have keys to be put in order by, at most: they take 8 MiB then.
const MOST_KEYS: usize = 1 << 20;

/// A key is a locate times this, and the number of one of the ticks.
const NUMBER_LIMIT: u64 = 1 << 32;

/// What bars need of a sale: 24 bytes of its 40. The fields go from wide to narrow, so that no bytes are between.
#[derive(Clone, Copy)]
pub struct Tick {
    pub(crate) shares: u64,
    /// The time, in whole seconds since midnight: each interval has some of them.
    pub(crate) second: u32,
    /// In ten-thousandths of a dollar.
    pub(crate) price: u32,
    /// The lower 32 bits of the place.
    pub(crate) place_low: u32,
    /// The bits of the place above them.
    pub(crate) place_high: u16,
    /// Of the sale.
    pub locate: u16,
}

impl Tick {
    /// That of a sale.
    #[inline]
    pub(crate) fn of(sale: Sale) -> Tick
        requires { HasTick sale }
        ensures value { sale_of_tick result ≡ in_seconds sale }
        ensures traded { 0 < sale.shares → (width : ℕ) → IsTraded (bar_of_tick width result) }
    {
        Tick {
            shares: sale.shares,
            second: (sale.time / NANOSECONDS) as u32,
            price: sale.price,
            place_low: (sale.place % (1 << 32)) as u32,
            place_high: (sale.place / (1 << 32)) as u16,
            locate: sale.locate,
        }
    }

    /// The same at the second in which the interval of its bar starts, so that its start isn't computed again.
    #[inline]
    pub fn at_start(&self, width: u32) -> Tick
        requires { 0 < width }
        ensures { bar_at result ≡ bar_of_tick width self.now }
    {
        Tick {
            second: self.second / width * width,
            ..*self
        }
    }

    /// A sale with the same bar, whatever the width.
    #[inline]
    pub fn sale(&self) -> Sale
        ensures { result ≡ sale_of_tick self.now }
    {
        Sale {
            place: u64::from(self.place_high) * (1 << 32) + u64::from(self.place_low),
            time: u64::from(self.second) * NANOSECONDS,
            locate: self.locate,
            kind: Kind::E,
            price: self.price,
            shares: self.shares,
            trade_no: 0,
        }
    }
}

/// Puts ticks in order of their locates.
pub(crate) fn put_ticks_in_order(ticks: &mut Vec<Tick>)
    ensures permutation { IsPermutation ticks.old.items ticks.new.items }
    ensures locates { IsNonDecreasingBy (λ tick. tick.locate) ticks.new.items }
{
    let alloc = *ticks.allocator();
    put_by_keys(alloc, ticks.as_mut_slice());
    // They are in order already, if there was memory for their keys: then this only looks.
    ticks.sort_unstable_by_key(|tick| tick.locate);
}

/// Puts ticks in order of their locates, those of one locate as they came, unless they are too many or there is no
/// memory. Sorted are numbers of 8 bytes: to sort the ticks themselves, of 24 bytes, takes twice as long. The order
/// isn't promised, only that no tick is lost.
fn put_by_keys(alloc: Global, ticks: &mut [Tick])
    ensures { IsPermutation ticks.old ticks.new }
{
    if let Some(mut keys) = keys_of(alloc, ticks) {
        keys.sort_unstable();
        move_by_keys(ticks, keys.as_mut_slice());
    }
}

/// A number for each tick: its locate, then which of the ticks it is.
fn keys_of(alloc: Global, ticks: &[Tick]) -> Option<Vec<u64>> {
    if ticks.len() > MOST_KEYS {
        return None;
    }
    let mut keys = Vec::with_capacity(alloc, ticks.len()).ok()?;
    for number in 0..ticks.len() {
        let locate = u64::from(ticks[number].locate);
        keys.push(locate * NUMBER_LIMIT + number as u64).ok()?;
    }
    Some(keys)
}

/// Moves each tick to the place of its key, in rounds: to the place where one starts comes the tick that the key there
/// is of, to where that was the one that the key there is of, and so on, until that is the one from the start. The key
/// of a place whose tick has come has the place's own number, so that a round from there ends at once.
#[tactic(auto, using(crate::proofs::Ticks::moved_on))]
fn move_by_keys(ticks: &mut [Tick], keys: &mut [u64])
    ensures { IsPermutation ticks.old ticks.new }
{
    let mut start = 0usize;
    let mut at = 0;
    for _ in 0..ticks.len().saturating_mul(2) {
        let Some(key) = keys.get_mut(at) else {
            return;
        };
        let from = (*key % NUMBER_LIMIT) as usize;
        *key = at as u64;
        if from == start {
            start = start.saturating_add(1);
            at = start;
        } else if at < ticks.len() && from < ticks.len() {
            ticks.swap(at, from);
            at = from;
        }
    }
}

/// Sales with the same bars as the ticks.
pub(crate) fn sales_of(alloc: Global, ticks: &[Tick]) -> Result<Vec<Sale>, OutOfMemory>
    ensures { IfOk result (λ sales. sales.items ≡ map sale_of_tick ticks.now) }
{
    let mut sales = Vec::with_capacity(alloc, ticks.len())?;
    for tick in ticks {
        sales.push(tick.sale())?;
    }
    Ok(sales)
}
