//! What holds of places, exchanges and overlaps, as clauses of functions that do nothing.

ghost use Rattle.std.specs.Prelude.{◌≡◌, ◌≢◌, ◌<◌, ◌+◌, ◌*◌, ◌⊎◌, ◌↔◌, ◌∷◌, [], ℕ, List, length, slice_index};
ghost use Rattle.std.specs.List.{Contains};
ghost use Rattle.linear_algebra.specs.Scalars.{Scalars, IsScalar, IsField};
ghost use Rattle.linear_algebra.specs.Vectors.{AreVectors, multiple};
ghost use Rattle.parity_lines.specs.Problems.{ParityProblem, IsProblem};
ghost use Rattle.parity_lines.specs.LineSets.{IsLineSet, IsIndependentSet};
ghost use Rattle.matching_state.specs.Supports.{HasComponent};
ghost use Rattle.matching_state.specs.Missing.{Misses};
ghost use Rattle.matching_state.specs.LinePlaces.{IsTip, IsOuter, IsExposed};
ghost use Rattle.matching_state.specs.DirectSteps.{IsSwap, IsTwoLineStep, HasDeterminantAt};
ghost use Rattle.matching_state.specs.Overlaps.{IsOverlap, HaveCommonComponent};

/// A line with a tip and an outer is exposed. Its tips are multiples of each other, so they have components at the
/// same lines, whichever was found.
pub fn tips_are_unique()
    ensures exposed { (S : Scalars) (p : ParityProblem) (M : List ℕ) (e : ℕ) (tip cs outer : List ℕ) → IsField S → IsProblem S p → IsIndependentSet S p M → e < length p.lines
        → IsTip S p M e tip cs → IsOuter S p M e outer → IsExposed S p M e }
    ensures multiples { (S : Scalars) (p : ParityProblem) (M : List ℕ) (e : ℕ) (tip cs tip' cs' : List ℕ) → IsField S → IsProblem S p → IsIndependentSet S p M → e < length p.lines
        → IsExposed S p M e → IsTip S p M e tip cs → IsTip S p M e tip' cs' → (c : ℕ) × IsScalar S c × (c ≢ S.zero) × (tip' ≡ multiple S c tip) }
    ensures components { (S : Scalars) (p : ParityProblem) (M : List ℕ) (e m : ℕ) (tip cs tip' cs' : List ℕ) → IsField S → IsProblem S p → IsIndependentSet S p M → e < length p.lines
        → IsExposed S p M e → IsTip S p M e tip cs → IsTip S p M e tip' cs' → HasComponent S M cs m → HasComponent S M cs' m }
{}

/// The exchange: an exposed line takes the place of a line at which its tip has a component. What M and the outer
/// miss together, the new set misses; with nothing more to miss, it is independent.
pub fn exchange_keeps_what_is_missed()
    ensures { (S : Scalars) (p : ParityProblem) (M N : List ℕ) (m e : ℕ) (tip cs outer : List ℕ) (keep : List (List ℕ)) → IsField S → IsProblem S p → IsIndependentSet S p M → e < length p.lines
        → IsTip S p M e tip cs → IsOuter S p M e outer → HasComponent S M cs m → IsLineSet p N → IsSwap M m e N → AreVectors S p.dimension keep
        → Misses S p M (outer ∷ keep) → Misses S p N keep }
{}

/// Two exposed lines take the place of one exactly where M misses their outers independently, and the components
/// of their tips at that line have a determinant that isn't zero.
pub fn two_lines_take_the_place_of_one()
    ensures { (S : Scalars) (p : ParityProblem) (M N : List ℕ) (i m e h : ℕ) (tip cs outer tip' cs' outer' : List ℕ) → IsField S → IsProblem S p → IsIndependentSet S p M → e < length p.lines → h < length p.lines
        → IsTip S p M e tip cs → IsOuter S p M e outer → IsTip S p M h tip' cs' → IsOuter S p M h outer' → i < length M → slice_index M i ≡ m → IsLineSet p N → IsTwoLineStep M m e h N
        → IsIndependentSet S p N ↔ (Misses S p M (outer ∷ outer' ∷ []) × HasDeterminantAt S cs cs' i) }
{}

/// Whether two exposed lines overlap can be told by any tips and outers of theirs.
pub fn overlaps_are_told_by_any_tips()
    ensures { (S : Scalars) (p : ParityProblem) (M : List ℕ) (e h : ℕ) (tip cs outer tip' cs' outer' : List ℕ) → IsField S → IsProblem S p → IsIndependentSet S p M → e < length p.lines → h < length p.lines
        → IsTip S p M e tip cs → IsOuter S p M e outer → IsTip S p M h tip' cs' → IsOuter S p M h outer'
        → IsOverlap S p M e h ↔ (Misses S p M (outer ∷ outer' ∷ []) × HaveCommonComponent S M cs cs') }
{}
