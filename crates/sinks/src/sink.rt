//! What takes a text.
ghost use Rattle.std.specs.Prelude.{◌≡◌, ◌<◌, ◌≤◌, ℕ, Bool, false, List, [], ◌++◌, length, take, is_err, IfOk, OnOk, MatchResult};

use sources::DeviceFailed;

/// A device that takes bytes.
pub trait Sink {
    /// From one state to a later one it took these bytes.
    ghost Took: { Self → Self → List ℕ → Type 0 };

    /// What it took has been passed on.
    ghost HasFlushed: { Self → Type 0 };

    /// A call has failed.
    ghost has_failed: { Self → Bool };

    /// Takes the first bytes of the slice, after all that it took before: at least one of a slice
    /// that is not empty. A call that fails takes none, and no call may follow it.
    fn put(&mut self, bytes: &[u8]) -> Result<usize, DeviceFailed>
        requires { has_failed self.old ≡ false }
        ensures count { IfOk result (λ n. n ≤ length bytes.now) }
        ensures some { 0 < length bytes.now → IfOk result (λ n. 0 < n) }
        ensures took { MatchResult result
            (λ n. Took self.old self.new (take n bytes.now))
            (λ _. Took self.old self.new []) }
        ensures failed { has_failed self.new ≡ is_err result };

    /// Passes on what it took and may have kept back.
    fn flush(&mut self) -> Result<(), DeviceFailed>
        requires { has_failed self.old ≡ false }
        ensures took { Took self.old self.new [] }
        ensures flushed { OnOk result (HasFlushed self.new) }
        ensures failed { has_failed self.new ≡ is_err result };

    /// Whether a call has failed.
    fn failed(&self) -> bool
        ensures { result ≡ has_failed self.now };

    ghost took_nothing: { (sink : Self) → Took sink sink [] };

    ghost took_more: { (a b c : Self) (xs ys : List ℕ) → Took a b xs → Took b c ys → Took a c (xs ++ ys) };
}
