//! Where a worker's pieces go.
ghost use Rattle.std.specs.Prelude.{◌≡◌, ◌++◌, ◌∷◌, [], List, MatchResult, IfErr};

/// Takes messages from one thread, as the pieces that a worker makes.
/// It is generic over its message: an implementation over a work that only an associated type names gets no proof.
pub trait Port<M> {
    /// What it has taken, in order, if it tells.
    ghost taken: { Self → List M };

    /// Whether it tells what it has taken.
    ghost Tells: { Type 0 };

    /// Takes the message, or hands it back.
    fn send(&mut self, message: M) -> Result<(), M>
        ensures handed_back { IfErr result (λ refused. refused ≡ message) }
        ensures taken { Tells → MatchResult result
            (λ _. taken self.new ≡ taken self.old ++ message ∷ [])
            (λ _. taken self.new ≡ taken self.old) };
}
