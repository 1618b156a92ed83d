//! Numbers in 24 bits, as offsets.
ghost use Rattle.std.specs.Prelude.{◌≡◌, ◌+◌, ◌<◌, ◌^◌, ◌≤◌};
ghost use Rattle.std.specs.Option.{IfSome};

/// What the places of order rows in few bytes count from, and the references of lean ones.
#[derive(Clone, Copy)]
pub(crate) struct Origin {
    pub(crate) place: u64,
    pub(crate) order_no: u64,
}

/// How many numbers an offset reaches, from the one that it counts from on.
const RANGE: u64 = 1 << 24;

/// The greatest number that offsets count from, so that none goes past the last number.
pub(crate) const LAST_START: u64 = u64::MAX - (RANGE - 1);

/// How far the number lies past the start, if that is less than 2^24.
#[inline(always)]
pub(crate) fn offset_from(start: u64, number: u64) -> Option<u32>
    requires { start + 2 ^ 24 ≤ 2 ^ 64 }
    ensures near { IfSome result (λ offset. offset < 2 ^ 24) }
    ensures offset { IfSome result (λ offset. start + offset ≡ number) }
{
    // One comparison tells both: a number before the start comes out past the range.
    let past = number.wrapping_sub(start);
    if past < RANGE {
        Some(past as u32)
    } else {
        None
    }
}
