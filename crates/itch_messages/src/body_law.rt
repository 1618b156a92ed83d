//! The law that joins reading and writing.
ghost use Rattle.std.specs.Prelude.{◌≡◌, ℕ, List, false};
ghost use Rattle.base.specs.Among.{AreBytes};
ghost use Rattle.itch_messages.specs.Body.{has_wrong_length, is_skipped, message_of};

/// A message other than `Skipped` has one body, which is the one that `append` writes, and that has
/// its type's length: the law is this function's contract, and it does nothing.
#[tactic(auto, using(crate::proofs::Laws::one_body, crate::proofs::Laws::read_is_whole))]
pub fn one_body_each()
    ensures one { (one other : List ℕ) → AreBytes one → AreBytes other
        → is_skipped (message_of one) ≡ false → message_of one ≡ message_of other → one ≡ other }
    ensures whole { (body : List ℕ) → is_skipped (message_of body) ≡ false → has_wrong_length body ≡ false }
{}
