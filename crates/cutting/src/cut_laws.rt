//! Laws of cuts: a file has one by a target, and one at given places.
ghost use Rattle.std.specs.Prelude.{◌≡◌, ◌<◌, ◌+◌, ℕ, List, All, length};
ghost use Rattle.cutting.specs.Cutting.{IsCutAt, IsCutBy};
ghost use Rattle.day_file.specs.declared.frame.TheConstants.{LONGEST_FRAME};

/// The law of cuts by a target: a file has one, and each of its runs has fewer bytes than the target
/// and one frame more. It does nothing when it runs.
pub fn one_cut()
    ensures one { (target : ℕ) (some others : List (List ℕ)) (bytes : List ℕ) →
        IsCutBy target some bytes → IsCutBy target others bytes → some ≡ others }

    ensures bound { (target : ℕ) (runs : List (List ℕ)) (bytes : List ℕ) →
        IsCutBy target runs bytes → All (λ run. length run < target + LONGEST_FRAME) runs }
{}

/// The law of cuts at given places: a file has one. It does nothing when it runs.
#[tactic(auto, using(crate::proofs::CutsAt::cuts_at_are_one))]
pub fn one_cut_at()
    ensures { (ends : List ℕ) (some others : List (List ℕ)) (bytes : List ℕ) →
        IsCutAt ends some bytes → IsCutAt ends others bytes → some ≡ others }
{}
