//! The average price of a bar.
ghost use Rattle.std.specs.Prelude.{◌≡◌, ◌<◌, ◌^◌, ◌/◌, ◌%◌};

use crate::bar::Bar;

/// An average price, exact: it is this price, and this rest over the volume.
#[derive(Clone, Copy)]
pub struct Average {
    /// Rounded down, in ten-thousandths of a dollar.
    pub price: u32,
    /// What is left of the notional, less than the volume.
    pub rest: u128,
}

impl Bar {
    /// The average price of the bar's sales: its notional divided by its volume.
    #[inline]
    pub fn average(&self) -> Average
        requires volume { 0 < self.now.volume }
        requires average { self.now.notional / self.now.volume < 2 ^ 32 }
        ensures price { result.price ≡ self.now.notional / self.now.volume }
        ensures rest { result.rest ≡ self.now.notional % self.now.volume }
    {
        let (price, rest) = divided(self.notional, self.volume);
        Average {
            price: price as u32,
            rest,
        }
    }
}

/// A quotient and its rest, in 64 bits if both numbers fit, which takes less time.
#[inline]
fn divided(number: u128, by: u128) -> (u128, u128)
    requires { 0 < by }
    ensures { result ≡ (number / by, number % by) }
{
    if number <= u128::from(u64::MAX) && by <= u128::from(u64::MAX) {
        let (number, by) = (number as u64, by as u64);
        (u128::from(number / by), u128::from(number % by))
    } else {
        (number / by, number % by)
    }
}
