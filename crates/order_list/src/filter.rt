//! Which order rows are needed.
ghost use Rattle.std.specs.Prelude.{◌≡◌, ℕ, [], ◌∷◌, ◌++◌, List, IfOk};
ghost use Rattle.order_list.specs.Filters.{IsFilterOf, is_needed};

use crate::OutOfMemory;
use crate::bits::ReferenceBits;
use std::alloc::Global;

/// The references of executions, and those that two orders may have. All executions are added before an order is.
#[derive(Drop)]
pub struct OrderFilter {
    seen: ReferenceBits,
    needed: ReferenceBits,
}

impl OrderFilter {
    /// No executions and no orders, with room for about `orders` and `executions`: 8 bits for an order that is seen,
    /// and for those that are needed 2 for an order and 32 for an execution, so that a bucket's stay in the cache.
    /// More find room too, but then more are needed for nothing. It is refused if there is no memory for them.
    pub fn new(alloc: Global, orders: usize, executions: usize) -> Result<Self, OutOfMemory>
        ensures { IfOk result (λ filter. IsFilterOf [] [] filter) }
    {
        let executed = executions.min(orders);
        Ok(OrderFilter {
            seen: ReferenceBits::new(alloc, orders / 8)?,
            needed: ReferenceBits::new(alloc, (orders / 32).saturating_add(executed / 2))?,
        })
    }

    /// Adds an execution of the reference: it needs its orders.
    #[inline(always)]
    pub fn add_execution(&mut self, executed: u64)
        ensures { (earlier ordered : List ℕ) → IsFilterOf earlier ordered self.old →
            IsFilterOf (earlier ++ executed ∷ []) ordered self.new }
    {
        self.needed.insert(executed);
    }

    /// Adds an order of the reference. If an earlier one may have the same, both are needed.
    #[inline(always)]
    pub fn add_order(&mut self, order_no: u64)
        ensures { (executed ordered : List ℕ) → IsFilterOf executed ordered self.old →
            IsFilterOf executed (ordered ++ order_no ∷ []) self.new }
    {
        if self.seen.may_have(order_no) {
            self.needed.insert(order_no);
        }
        self.seen.insert(order_no);
    }

    /// Whether the orders of the reference are needed.
    #[inline(always)]
    pub fn needs(&self, order_no: u64) -> bool
        ensures { result ≡ is_needed self.now order_no }
    {
        self.needed.may_have(order_no)
    }
}
