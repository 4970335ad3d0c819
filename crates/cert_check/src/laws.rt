ghost use Rattle.std.specs.Prelude.{◌≡◌, ℕ, List};
ghost use Rattle.field_core.specs.Matrix.{Matrix};
ghost use Rattle.linear_algebra.specs.Scalars.{Scalars};
ghost use Rattle.parity_lines.specs.Problems.{ParityProblem};
ghost use Rattle.cert_check.specs.Verdicts.{IsVerdictOn};
ghost use Rattle.cert_check.specs.declared.verdicts.Verdict.{Verdict};

/// At most one verdict is true of an answer.
pub fn verdicts_are_unique()
    ensures { (S : Scalars) (p : ParityProblem) (set : List ℕ) (kernel : Matrix) (parts : List (List ℕ)) (v w : Verdict)
        → IsVerdictOn S p set kernel parts v → IsVerdictOn S p set kernel parts w → v ≡ w }
{}
