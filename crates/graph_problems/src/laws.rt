//! What the independent sets of the problems of a graph are, as laws.

ghost use Rattle.std.specs.Prelude.{◌≡◌, ◌↔◌, ◌+◌, ◌≤◌, ℕ, Bool, List, length, map};
ghost use Rattle.linear_algebra.specs.Scalars.{Scalars, IsField};
ghost use Rattle.parity_lines.specs.LineSets.{IsLineSet, IsIndependentSet, IsLargest};
ghost use Rattle.parity_lines.specs.Problems.{ParityProblem};
ghost use Rattle.graph_theory.specs.Cacti.{triple_at, AreTriangles, IsCactus, IsLargestCactus};
ghost use Rattle.graph_theory.specs.Counts.{InRange};
ghost use Rattle.graph_theory.specs.Matchings.{IsMatching, IsLargestMatching};
ghost use Rattle.graph_theory.specs.Walks.{edge_at};
ghost use Rattle.graph_problems.specs.GraphLines.{matching_problem, triangle_problem, IsCactusProblem};
ghost use Rattle.graph_problems.specs.PathLines.{paths_problem, IsPathsSetting};
ghost use Rattle.path_theory.specs.Families.{IsPathFamily, IsLargestPathFamily};
ghost use Rattle.path_theory.specs.Terminals.{IsTerminalForest, IsOffset};

/// Over any finite field the lines of edges are independent exactly where the edges are a matching, and the largest sets are the
/// largest matchings.
pub fn matchings_are_independent_sets()
    ensures sets { (S : Scalars) (n : ℕ) (E : List (ℕ × ℕ)) (L : List ℕ) → IsField S → InRange n E
        → IsIndependentSet S (matching_problem S n E) L ↔ IsMatching E L }
    ensures largest { (S : Scalars) (n : ℕ) (E : List (ℕ × ℕ)) (L : List ℕ) → IsField S → InRange n E
        → IsLargest S (matching_problem S n E) L ↔ IsLargestMatching E L }
{}

/// Over a finite field in which one and one are zero the lines of triangles are independent exactly where the triangles are a cactus.
/// A largest set has the triangles of a largest cactus, and every largest cactus has as many.
pub fn cacti_are_independent_sets()
    ensures sets { (S : Scalars) (n : ℕ) (E : List (ℕ × ℕ)) (Ts : List (ℕ × ℕ × ℕ)) (L : List ℕ) → IsField S → S.sum S.one S.one ≡ S.zero
        → InRange n E → AreTriangles E Ts → IsLineSet (triangle_problem S n Ts) L
        → IsIndependentSet S (triangle_problem S n Ts) L ↔ IsCactus E (map (triple_at Ts) L) }
    ensures largest { (S : Scalars) (n : ℕ) (E : List (ℕ × ℕ)) (Ts : List (ℕ × ℕ × ℕ)) (L : List ℕ) → IsField S → S.sum S.one S.one ≡ S.zero
        → InRange n E → AreTriangles E Ts → IsLargest S (triangle_problem S n Ts) L → IsLargestCactus E (map (triple_at Ts) L) }
    ensures sizes { (S : Scalars) (n : ℕ) (E : List (ℕ × ℕ)) (Ts Us : List (ℕ × ℕ × ℕ)) (L : List ℕ) → IsField S → S.sum S.one S.one ≡ S.zero
        → InRange n E → AreTriangles E Ts → IsLargest S (triangle_problem S n Ts) L → IsLargestCactus E Us → length L ≡ length Us }
    ensures one_problem { (S : Scalars) (n : ℕ) (E : List (ℕ × ℕ)) (p q : ParityProblem) → IsCactusProblem S n E p → IsCactusProblem S n E q → p ≡ q }
{}

/// Over any finite field the lines of edges are independent exactly where the edges are a forest in which each tree has at most two
/// terminals, and two only of different classes. From an independent set to a family of disjoint paths the number falls by no more than
/// the offset, and back it grows by no less; so the largest size is the largest number of paths and the offset.
pub fn terminal_forests_are_independent_sets()
    ensures sets { (S : Scalars) (minus n : ℕ) (terminal : ℕ → Bool) (class : ℕ → ℕ) (E : List (ℕ × ℕ)) (L : List ℕ) → IsField S
        → IsPathsSetting S minus n terminal class E → IsLineSet (paths_problem S minus n terminal class E) L
        → IsIndependentSet S (paths_problem S minus n terminal class E) L ↔ IsTerminalForest terminal class (map (edge_at E) L) }
    ensures families { (S : Scalars) (minus n : ℕ) (terminal : ℕ → Bool) (class : ℕ → ℕ) (E : List (ℕ × ℕ)) (L : List ℕ) (offset : ℕ) → IsField S
        → IsPathsSetting S minus n terminal class E → IsOffset n terminal E offset → IsIndependentSet S (paths_problem S minus n terminal class E) L
        → (paths : List (List ℕ)) × IsPathFamily E terminal class paths × (length L ≤ length paths + offset) }
    ensures back { (S : Scalars) (minus n : ℕ) (terminal : ℕ → Bool) (class : ℕ → ℕ) (E : List (ℕ × ℕ)) (paths : List (List ℕ)) (offset : ℕ) → IsField S
        → IsPathsSetting S minus n terminal class E → IsOffset n terminal E offset → IsPathFamily E terminal class paths
        → (L : List ℕ) × IsIndependentSet S (paths_problem S minus n terminal class E) L × (length paths + offset ≤ length L) }
    ensures sizes { (S : Scalars) (minus n : ℕ) (terminal : ℕ → Bool) (class : ℕ → ℕ) (E : List (ℕ × ℕ)) (L : List ℕ) (paths : List (List ℕ)) (offset : ℕ) → IsField S
        → IsPathsSetting S minus n terminal class E → IsOffset n terminal E offset → IsLargest S (paths_problem S minus n terminal class E) L
        → IsLargestPathFamily E terminal class paths → length L ≡ length paths + offset }
{}
