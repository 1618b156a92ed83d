//! A source that gives one byte a call, and fails at one of its calls.
ghost use Rattle.std.specs.Prelude.{◌≡◌, false};

use day_file::{DeviceFailed, Source};

/// A source that gives one byte a call, and fails once it has been called `calls` times. Each call
/// takes one from `calls`.
#[derive(Drop)]
pub struct Trickle<'a> {
    pub rest: &'a [u8],
    pub calls: u32,
    pub failed: bool,
}

impl<'a> Trickle<'a> {
    /// The source of these bytes.
    pub fn of(rest: &'a [u8], calls: u32) -> Trickle<'a>
        ensures { result.failed ≡ false }
    {
        Trickle {
            rest,
            calls,
            failed: false,
        }
    }
}

impl<'a> Source for Trickle<'a> {
    ghost use Rattle.std.specs.Prelude.{◌≡◌, ◌++◌, [], refl};
    ghost use Rattle.std.proofs.Common.{◌∙◌, sym, ap, append_assoc};

    ghost Gave = { λ s t bytes. s.rest.now ≡ bytes ++ t.rest.now };

    ghost HasEnded = { λ s. s.rest.now ≡ [] };

    ghost has_failed = { λ s. s.failed };

    ghost gave_nothing = { λ s. refl };

    ghost gave_more = { λ a b c xs ys p q.
        p ∙ ap (λ l. xs ++ l) q ∙ sym (append_assoc xs ys c.rest.now) };

    fn take(&mut self, into: &mut [u8]) -> Result<usize, DeviceFailed> {
        if self.calls == 0 {
            self.failed = true;
            return Err(DeviceFailed);
        }
        self.calls -= 1;
        let Some((first, rest)) = self.rest.split_first() else {
            return Ok(0);
        };
        into[0] = *first;
        self.rest = rest;
        Ok(1)
    }

    fn failed(&self) -> bool {
        self.failed
    }
}
