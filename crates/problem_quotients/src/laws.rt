//! What holds of a problem and of the problem modulo a point, as clauses of functions that do nothing.

ghost use Rattle.std.specs.Prelude.{◌≡◌, ◌≢◌, ◌↔◌, ◌∷◌, [], ℕ, suc, List, length};
ghost use Rattle.std.specs.List.{Contains};
ghost use Rattle.std.specs.List.Sorted.{IsStrictlyIncreasing};
ghost use Rattle.field_core.specs.Matrix.{Matrix};
ghost use Rattle.linear_algebra.specs.Scalars.{Scalars, IsField};
ghost use Rattle.linear_algebra.specs.Spans.{Combines};
ghost use Rattle.matching_state.specs.Missing.{Misses};
ghost use Rattle.matching_state.specs.Supports.{HasComponent};
ghost use Rattle.parity_lines.specs.Certificates.{IsCertificate, IsGoodAnswer, bound};
ghost use Rattle.parity_lines.specs.LineSets.{IsLineSet, IsIndependentSet};
ghost use Rattle.parity_lines.specs.Problems.{ParityProblem, IsProblem, vectors_at};
ghost use Rattle.problem_quotients.specs.ProblemsModulo.{IsProblemModulo, lifted_kernel};

/// A set of lines is independent modulo the point exactly where it misses the point; so it is independent.
pub fn sets_modulo_the_point_miss_it()
    ensures misses { (S : Scalars) (point : List ℕ) (i : ℕ) (p q : ParityProblem) (N : List ℕ) → IsField S → IsProblem S p → IsProblemModulo S point i p q
        → IsIndependentSet S q N ↔ (IsLineSet p N × Misses S p N (point ∷ [])) }
    ensures independent { (S : Scalars) (point : List ℕ) (i : ℕ) (p q : ParityProblem) (N : List ℕ) → IsField S → IsProblem S p → IsProblemModulo S point i p q
        → IsIndependentSet S q N → IsIndependentSet S p N }
{}

/// An independent set that spans the point has a line at which the point's coordinates over it are not both zero.
/// Without any such line it is independent modulo the point, and one line shorter.
pub fn sets_lose_a_line_modulo_the_point()
    ensures some { (S : Scalars) (point : List ℕ) (i : ℕ) (p q : ParityProblem) (M cs : List ℕ) → IsField S → IsProblem S p → IsProblemModulo S point i p q
        → IsIndependentSet S p M → Combines S p.dimension (vectors_at p M) cs point → (m : ℕ) × HasComponent S M cs m }
    ensures each { (S : Scalars) (point : List ℕ) (i : ℕ) (p q : ParityProblem) (M cs N : List ℕ) (m : ℕ) → IsField S → IsProblem S p → IsProblemModulo S point i p q
        → IsIndependentSet S p M → Combines S p.dimension (vectors_at p M) cs point → HasComponent S M cs m
        → IsStrictlyIncreasing N → ((l : ℕ) → Contains N l ↔ (Contains M l × (l ≢ m))) → IsIndependentSet S q N × (suc (length N) ≡ length M) }
{}

/// A certificate of the problem modulo the point gives one of the problem: its kernel is lifted, the point put in front,
/// and the parts are the same. The bound is one more. So a good answer modulo the point, and an independent set of one
/// line more, give a good answer.
pub fn certificates_lift_from_the_quotient()
    ensures certificate { (S : Scalars) (point : List ℕ) (i : ℕ) (p q : ParityProblem) (kernel : Matrix) (parts : List (List ℕ)) → IsField S → IsProblem S p → IsProblemModulo S point i p q
        → IsCertificate S q kernel parts → IsCertificate S p (lifted_kernel S point i kernel) parts }
    ensures bound { (S : Scalars) (point : List ℕ) (i : ℕ) (p q : ParityProblem) (kernel : Matrix) (parts : List (List ℕ)) → IsField S → IsProblem S p → IsProblemModulo S point i p q
        → IsCertificate S q kernel parts → bound S p (lifted_kernel S point i kernel) parts ≡ suc (bound S q kernel parts) }
    ensures good_answer { (S : Scalars) (point : List ℕ) (i : ℕ) (p q : ParityProblem) (N M : List ℕ) (kernel : Matrix) (parts : List (List ℕ)) → IsField S → IsProblem S p → IsProblemModulo S point i p q
        → IsGoodAnswer S q N kernel parts → IsIndependentSet S p M → length M ≡ suc (length N) → IsGoodAnswer S p M (lifted_kernel S point i kernel) parts }
{}
