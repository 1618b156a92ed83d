//! Devices that are read at places.
ghost use Rattle.std.specs.Prelude.{◌≡◌, ◌≤◌, ◌<◌, ◌+◌, ◌++◌, ℕ, List, [], true, length, take, IfOk, IfErr};

use day_file::DeviceFailed;

/// A device that gives the bytes at a place, to any number of threads and any number of times. Places are in bytes from
/// its start. Two readings of one place may give different bytes: a file may change.
///
/// Threads see by `==` whether a piece of work is theirs: a source is equal to itself.
pub trait BlockSource: Eq + Drop {
    // Readings from this place on, one or more, gave these bytes.
    ghost GaveAt: { Self → ℕ → List ℕ → Type 0 };

    // A reading at this place found no byte there.
    ghost EndsAt: { Self → ℕ → Type 0 };

    // A reading at this place failed.
    ghost FailsAt: { Self → ℕ → Type 0 };

    /// `Ok(n)` says that the first n bytes of `into` were read at the place, and 0 that none is
    /// there. What `into` holds after those n is left open.
    fn read_at(&self, place: u64, into: &mut [u8]) -> Result<usize, DeviceFailed>
        requires room { 0 < length into.old }
        ensures len { length into.new ≡ length into.old }
        ensures count { IfOk result (λ n. n ≤ length into.new) }
        ensures gave { IfOk result (λ n. GaveAt self.now place (take n into.new)) }
        ensures end { IfOk result (λ n. n ≡ 0 → EndsAt self.now place) }
        ensures failed { IfErr result (λ _. FailsAt self.now place) };

    // Nothing is read everywhere; what is read one after the other was read, and so were its parts.
    ghost gave_nothing: { (s : Self) (place : ℕ) → GaveAt s place [] };

    ghost gave_more: { (s : Self) (place : ℕ) (xs ys : List ℕ) →
        GaveAt s place xs → GaveAt s (place + length xs) ys → GaveAt s place (xs ++ ys) };

    ghost gave_front: { (s : Self) (place : ℕ) (xs ys : List ℕ) →
        GaveAt s place (xs ++ ys) → GaveAt s place xs };

    ghost gave_back: { (s : Self) (place : ℕ) (xs ys : List ℕ) →
        GaveAt s place (xs ++ ys) → GaveAt s (place + length xs) ys };

    // Sources that compare as equal are one, as far as contracts see them.
    ghost one_source: { (a b : Self) → Self.eq a b ≡ true → a ≡ b };
}
