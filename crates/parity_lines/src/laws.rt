ghost use Rattle.std.specs.Prelude.{ℕ, ◌≤◌, List, length};
ghost use Rattle.field_core.specs.Matrix.{Matrix};
ghost use Rattle.linear_algebra.specs.Scalars.{Scalars, IsField};
ghost use Rattle.parity_lines.specs.Problems.{ParityProblem, IsProblem};
ghost use Rattle.parity_lines.specs.LineSets.{IsIndependentSet, IsLargest};
ghost use Rattle.parity_lines.specs.Certificates.{IsCertificate, bound, IsGoodAnswer};

/// The easy half of Lovász's min-max theorem (Lovász and Plummer, Matching Theory, chapter 11): the bound of
/// a certificate limits every independent set, so the set of a good answer is largest.
pub fn good_answer_is_largest()
    ensures limits { (S : Scalars) (p : ParityProblem) (kernel : Matrix) (parts : List (List ℕ)) (set : List ℕ) → IsField S → IsProblem S p
        → IsCertificate S p kernel parts → IsIndependentSet S p set → length set ≤ bound S p kernel parts }
    ensures largest { (S : Scalars) (p : ParityProblem) (set : List ℕ) (kernel : Matrix) (parts : List (List ℕ)) → IsField S → IsProblem S p
        → IsGoodAnswer S p set kernel parts → IsLargest S p set }
{}
