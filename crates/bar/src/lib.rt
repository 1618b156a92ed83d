//! One bar (`Bar`): the first, high, low and last price of one locate in one interval of the day, the volume, the
//! notional, the number of trades and the exact average. It is made of one sale, or of two bars of its locate and
//! interval. The crate `bars` has tables of bars, and their texts.
//!
//! Not proved: that two bars that are joined are of one locate and interval, which `has_key_of` tells, nor that a bar
//! is of any sales. Callers show that, and that sums fit.
#![tactic(auto)]

mod average;
mod bar;

pub use average::Average;
pub use bar::Bar;
