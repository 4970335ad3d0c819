//! What the independent sets of the problem of a graph say of its rotations, as laws.

ghost use Rattle.std.specs.Prelude.{◌≡◌, ◌≤◌, ◌↔◌, ℕ, List, All, length};
ghost use Rattle.vector_spaces.proofs.Distinct.{IsDistinct};
ghost use Rattle.linear_algebra.specs.Scalars.{Scalars, IsField};
ghost use Rattle.parity_lines.specs.LineSets.{IsIndependentSet, IsLargest, IsLineSet};
ghost use Rattle.parity_lines.specs.Problems.{ParityProblem};
ghost use Rattle.graph_theory.specs.Walks.{edge_at};
ghost use Rattle.graph_core.specs.Adjacency.{AreAdjacentPairs};
ghost use Rattle.edge_lists.specs.Connections.{AreBelow, IsConnected};
ghost use Rattle.edge_lists.specs.EdgeNumbers.{edge_numbers};
ghost use Rattle.edge_lists.specs.EdgePairs.{XuongPairs};
ghost use Rattle.edge_lists.specs.Occurrences.{without};
ghost use Rattle.rotation_theory.specs.Genus.{HasGenus};
ghost use Rattle.rotation_theory.specs.MaximumGenus.{IsMaximumGenus};
ghost use Rattle.rotation_theory.specs.Rotations.{IsRotation};
ghost use Rattle.genus_front.specs.GenusProblems.{IsGenusProblem, edges_of};

/// Over a field of two elements, and for a connected graph: a set of lines is independent exactly where its pairs have no common edge and
/// the graph without their edges is connected. An independent set of z lines gives a rotation of genus z at least; a rotation of genus g
/// gives g such pairs, and so an independent set of g lines. So the size of a largest set is the maximum genus, and the maximum genus is
/// the size of a largest set.
pub fn largest_sets_have_the_size_of_the_maximum_genus()
    ensures sets { (S : Scalars) (E : List (ℕ × ℕ)) (n : ℕ) (p : ParityProblem) (P : List (ℕ × ℕ)) (M : List ℕ) → IsField S → S.order ≡ 2
        → All (AreBelow n) E → IsConnected (edge_at E) n (edge_numbers E) → IsGenusProblem S E p → AreAdjacentPairs E P → IsLineSet p M
        → IsIndependentSet S p M ↔ (IsDistinct (edges_of P M) × IsConnected (edge_at E) n (without (edges_of P M) (edge_numbers E))) }
    ensures lower { (S : Scalars) (E : List (ℕ × ℕ)) (n : ℕ) (p : ParityProblem) (M : List ℕ) → IsField S → S.order ≡ 2
        → All (AreBelow n) E → IsConnected (edge_at E) n (edge_numbers E) → IsGenusProblem S E p → IsIndependentSet S p M
        → (L : List (List ℕ)) × (g : ℕ) × IsRotation (edge_at E) n (edge_numbers E) L × HasGenus n (edge_numbers E) L g × (length M ≤ g) }
    ensures pairs { (E : List (ℕ × ℕ)) (n : ℕ) (L : List (List ℕ)) (g : ℕ) → IsConnected (edge_at E) n (edge_numbers E)
        → IsRotation (edge_at E) n (edge_numbers E) L → HasGenus n (edge_numbers E) L g → XuongPairs (edge_at E) n (edge_numbers E) g }
    ensures upper { (S : Scalars) (E : List (ℕ × ℕ)) (n : ℕ) (p : ParityProblem) (L : List (List ℕ)) (g : ℕ) → IsField S → S.order ≡ 2
        → All (AreBelow n) E → IsConnected (edge_at E) n (edge_numbers E) → IsGenusProblem S E p
        → IsRotation (edge_at E) n (edge_numbers E) L → HasGenus n (edge_numbers E) L g
        → (M : List ℕ) × IsIndependentSet S p M × (length M ≡ g) }
    ensures largest { (S : Scalars) (E : List (ℕ × ℕ)) (n : ℕ) (p : ParityProblem) (M : List ℕ) → IsField S → S.order ≡ 2
        → All (AreBelow n) E → IsConnected (edge_at E) n (edge_numbers E) → IsGenusProblem S E p → IsLargest S p M
        → IsMaximumGenus (edge_at E) n (edge_numbers E) (length M) }
    ensures maximum { (S : Scalars) (E : List (ℕ × ℕ)) (n : ℕ) (p : ParityProblem) (g : ℕ) → IsField S → S.order ≡ 2
        → All (AreBelow n) E → IsConnected (edge_at E) n (edge_numbers E) → IsGenusProblem S E p
        → IsMaximumGenus (edge_at E) n (edge_numbers E) g → (M : List ℕ) × IsLargest S p M × (length M ≡ g) }
{}
