//! Remainders by one number, each by a multiplication in place of a division.
ghost use Rattle.std.specs.Prelude.{◌≡◌, ◌*◌, ◌+◌, ◌/◌, ◌%◌, ◌^◌, ◌<◌, ◌≤◌};

use std::marker::Model;

/// A number that others are divided by. Contracts see the number.
#[derive(Drop)]
pub(crate) struct Divisor {
    number: u32,
    /// How often it goes into the greatest number of 64 bits.
    times: u64,
}

impl Model for Divisor {
    ghost use Rattle.std.specs.Prelude.{◌≡◌, ℕ, ◌<◌, ◌/◌};

    ghost Value = { ℕ };

    ghost view = { λ divisor. divisor.number };

    ghost invariant = { λ divisor. (0 < divisor.number)
        × (divisor.times ≡ 18446744073709551615 / divisor.number) };
}

impl Divisor {
    pub(crate) fn new(number: u32) -> Self
        requires { 0 < number }
        ensures { result ≡ number }
    {
        Divisor {
            number,
            times: u64::MAX / u64::from(number),
        }
    }

    /// What is left of a number when it is divided. Some processors take four times as long for a division.
    #[inline(always)]
    pub(crate) fn remainder(&self, of: u64) -> u32
        ensures { result ≡ of % self.now }
    {
        let number = u64::from(self.number);
        let left = of - self.quotient(of) * number;
        if left < number {
            left as u32
        } else {
            (left - number) as u32
        }
    }

    /// How often it goes into a number, or once less.
    #[inline(always)]
    fn quotient(&self, of: u64) -> u64
        ensures most { result * self.now ≤ of }
        ensures least { of < result * self.now + 2 * self.now }
    {
        ((u128::from(of) * u128::from(self.times)) >> 64) as u64
    }
}
