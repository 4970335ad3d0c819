//! What holds of exchanges toward a target, as clauses of functions that do nothing.

ghost use Rattle.std.specs.Prelude.{◌≡◌, ◌≤◌, ◌⊎◌, ◌∷◌, ◌++◌, [], ℕ, suc, List, length};
ghost use Rattle.std.specs.List.{Contains};
ghost use Rattle.linear_algebra.specs.Scalars.{Scalars, IsField};
ghost use Rattle.linear_algebra.specs.Vectors.{AreVectors};
ghost use Rattle.parity_lines.specs.LineSets.{IsLineSet, IsIndependentSet};
ghost use Rattle.parity_lines.specs.Problems.{ParityProblem, IsProblem, vectors_at};
ghost use Rattle.matching_state.specs.Missing.{Misses};
ghost use Rattle.exchanges.specs.Exchanges.{AreSpanned, IsExchangeToward, IsReached, IsSettled, StillMisses, distance};

/// One exchange toward a target keeps the set independent and as long, and misses what was missed. The target is
/// nearer by one line.
pub fn exchanges_come_nearer()
    ensures kept { (S : Scalars) (p : ParityProblem) (keep : List (List ℕ)) (T M N : List ℕ) (out into : ℕ) → IsField S → IsProblem S p → IsIndependentSet S p M → IsLineSet p T → AreVectors S p.dimension keep → Misses S p M keep
        → IsExchangeToward S p keep T M out into N → IsLineSet p N → StillMisses S p keep M N }
    ensures nearer { (S : Scalars) (p : ParityProblem) (keep : List (List ℕ)) (T M N : List ℕ) (out into : ℕ) → IsField S → IsProblem S p → IsIndependentSet S p M → IsLineSet p T
        → IsExchangeToward S p keep T M out into N → IsLineSet p N → suc (distance N T) ≡ distance M T }
{}

/// So it is for a set that is reached by exchanges, one after another. It has no lines but those of the first set and
/// of the target, has each line still that both have, and is no farther from the target.
pub fn sets_that_exchanges_reach()
    ensures kept { (S : Scalars) (p : ParityProblem) (keep : List (List ℕ)) (T M N : List ℕ) → IsField S → IsProblem S p → IsIndependentSet S p M → IsLineSet p T → AreVectors S p.dimension keep → Misses S p M keep
        → IsReached S p keep T M N → StillMisses S p keep M N }
    ensures lines { (S : Scalars) (p : ParityProblem) (keep : List (List ℕ)) (T M N : List ℕ) (l : ℕ) → IsReached S p keep T M N → Contains N l → Contains M l ⊎ Contains T l }
    ensures stays { (S : Scalars) (p : ParityProblem) (keep : List (List ℕ)) (T M N : List ℕ) (l : ℕ) → IsReached S p keep T M N → Contains M l → Contains T l → Contains N l }
    ensures nearer { (S : Scalars) (p : ParityProblem) (keep : List (List ℕ)) (T M N : List ℕ) → IsReached S p keep T M N → distance N T ≤ distance M T }
{}

/// A set that has settled toward an independent target spans it, together with what is kept.
pub fn settled_sets_span_independent_targets()
    ensures { (S : Scalars) (p : ParityProblem) (keep : List (List ℕ)) (T M : List ℕ) → IsField S → IsProblem S p → IsIndependentSet S p M → IsIndependentSet S p T → AreVectors S p.dimension keep → Misses S p M keep
        → IsSettled S p keep T M → AreSpanned S p (vectors_at p M ++ keep) T }
{}

/// Missing is transitive: N misses two vectors together, and M, as long, one that is kept while M is exchanged toward
/// N. A set that is reached and has settled misses it together with one of the two.
pub fn missing_is_transitive()
    ensures { (S : Scalars) (p : ParityProblem) (M N L q u w : List ℕ) → IsField S → IsProblem S p → IsIndependentSet S p M → IsIndependentSet S p N → length M ≡ length N → AreVectors S p.dimension (q ∷ u ∷ w ∷ [])
        → Misses S p M (q ∷ []) → Misses S p N (u ∷ w ∷ []) → IsReached S p (q ∷ []) N M L → IsSettled S p (q ∷ []) N L → Misses S p L (q ∷ u ∷ []) ⊎ Misses S p L (q ∷ w ∷ []) }
{}
