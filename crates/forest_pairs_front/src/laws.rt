//! What the independent sets of the problems of pairs are, as laws.

ghost use Rattle.std.specs.Prelude.{◌≡◌, ◌↔◌, ℕ, List, All};
ghost use Rattle.edge_lists.specs.Connections.{AreBelow, IsConnected};
ghost use Rattle.edge_lists.specs.EdgeNumbers.{edge_numbers};
ghost use Rattle.forest_pairs_front.specs.ListedPairs.{ArePairForest, AreSparePairs, IsLongest};
ghost use Rattle.forest_pairs_front.specs.PairLines.{forest_problem, IsSpareProblem};
ghost use Rattle.graph_theory.specs.Walks.{edge_at};
ghost use Rattle.linear_algebra.specs.Scalars.{Scalars, IsField};
ghost use Rattle.parity_lines.specs.LineSets.{IsIndependentSet, IsLargest};
ghost use Rattle.parity_lines.specs.Problems.{ParityProblem};

/// Over a finite field in which one and one are zero the lines of sums of unit vectors are independent exactly where the edges of the pairs
/// have no cycle, and the largest sets are the longest such lists.
pub fn forests_are_independent_sets()
    ensures sets { (S : Scalars) (n : ℕ) (E : List (ℕ × ℕ)) (M : List ℕ) → IsField S
        → S.sum S.one S.one ≡ S.zero → All (AreBelow n) E → IsIndependentSet S (forest_problem S n E) M ↔ ArePairForest E M }
    ensures largest { (S : Scalars) (n : ℕ) (E : List (ℕ × ℕ)) (M : List ℕ) → IsField S
        → S.sum S.one S.one ≡ S.zero → All (AreBelow n) E → IsLargest S (forest_problem S n E) M ↔ IsLongest (ArePairForest E) M }
{}

/// Over the field of two elements the lines of cographic vectors of a connected graph are independent exactly where the graph without the
/// edges of the pairs is connected, and the largest sets are the longest such lists.
pub fn spare_pairs_are_independent_sets()
    ensures sets { (S : Scalars) (n : ℕ) (E : List (ℕ × ℕ)) (p : ParityProblem) (M : List ℕ) → IsField S → S.order ≡ 2
        → All (AreBelow n) E → IsConnected (edge_at E) n (edge_numbers E) → IsSpareProblem S E p
        → IsIndependentSet S p M ↔ AreSparePairs n E M }
    ensures largest { (S : Scalars) (n : ℕ) (E : List (ℕ × ℕ)) (p : ParityProblem) (M : List ℕ) → IsField S → S.order ≡ 2
        → All (AreBelow n) E → IsConnected (edge_at E) n (edge_numbers E) → IsSpareProblem S E p
        → IsLargest S p M ↔ IsLongest (AreSparePairs n E) M }
{}
