//! What the independent sets of the problem of pairs say of the feedback sets of a cubic graph, as a law.

ghost use Rattle.std.specs.Prelude.{◌≡◌, ◌≤◌, ◌+◌, ◌/◌, ℕ, List, All, length};
ghost use Rattle.linear_algebra.specs.Scalars.{Scalars, IsField};
ghost use Rattle.parity_lines.specs.LineSets.{IsIndependentSet, IsLargest};
ghost use Rattle.parity_lines.specs.Problems.{ParityProblem};
ghost use Rattle.graph_theory.specs.Walks.{edge_at};
ghost use Rattle.edge_lists.specs.Connections.{AreBelow, IsConnected};
ghost use Rattle.edge_lists.specs.EdgeNumbers.{edge_numbers};
ghost use Rattle.genus_front.specs.GenusProblems.{IsGenusProblem};
ghost use Rattle.cubic_front.specs.CubicGraphs.{IsCubic};
ghost use Rattle.cubic_front.specs.FeedbackVertexSets.{IsFeedbackVertexSet, IsLeastFeedbackVertexSet};

/// Over a field of two elements, and for a connected cubic simple graph with n vertices, one or more: an independent set of lines gives a
/// feedback set of at most n/2 + 1 vertices without its size, and a feedback set gives an independent set of at least n/2 + 1 lines without
/// its size. So the sizes of a least feedback set and of a largest set add up to n/2 + 1.
pub fn least_sets_and_largest_sets_add_up()
    ensures vertices { (S : Scalars) (E : List (ℕ × ℕ)) (n : ℕ) (p : ParityProblem) (M : List ℕ) → IsField S → S.order ≡ 2 → 1 ≤ n
        → All (AreBelow n) E → IsConnected (edge_at E) n (edge_numbers E) → IsCubic n E → IsGenusProblem S E p → IsIndependentSet S p M
        → (X : List ℕ) × IsFeedbackVertexSet n E X × (length X + length M ≤ n / 2 + 1) }
    ensures lines { (S : Scalars) (E : List (ℕ × ℕ)) (n : ℕ) (p : ParityProblem) (X : List ℕ) → IsField S → S.order ≡ 2 → 1 ≤ n
        → All (AreBelow n) E → IsConnected (edge_at E) n (edge_numbers E) → IsCubic n E → IsGenusProblem S E p → IsFeedbackVertexSet n E X
        → (M : List ℕ) × IsIndependentSet S p M × (n / 2 + 1 ≤ length X + length M) }
    ensures least { (S : Scalars) (E : List (ℕ × ℕ)) (n : ℕ) (p : ParityProblem) (M X : List ℕ) → IsField S → S.order ≡ 2 → 1 ≤ n
        → All (AreBelow n) E → IsConnected (edge_at E) n (edge_numbers E) → IsCubic n E → IsGenusProblem S E p → IsLargest S p M
        → IsLeastFeedbackVertexSet n E X → length X + length M ≡ n / 2 + 1 }
{}
