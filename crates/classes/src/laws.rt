//! What holds of akin lines, as clauses of a function that does nothing.

ghost use Rattle.std.specs.Prelude.{◌⊎◌, ℕ, List, length};
ghost use Rattle.class_theory.proofs.Labels.{AreExact};
ghost use Rattle.families.specs.Families.{IsFamily, SetFamily};
ghost use Rattle.linear_algebra.specs.Scalars.{Scalars, IsField};
ghost use Rattle.parity_lines.specs.Problems.{IsProblem};
ghost use Rattle.classes.specs.ClassLaws.{FitsClasses, LeadsOn};
ghost use Rattle.classes.specs.Ends.{IsSetOf};
ghost use Rattle.classes.specs.Tables.{Separators, akin_at};
ghost use Rattle.classes.specs.Turns.{IsTurn, size_of};

/// Of a family with no common vector and no free line, akin lines form classes, or something leads on. Where they do,
/// each independent set of the size has as many lines of a class as half of its rank, or something leads on: a set of
/// the size with a free line, one with an overlap, or one that separates two akin lines.
pub fn akin_lines_form_classes()
    ensures classes { (S : Scalars) (F : IsField S) (f : SetFamily) (t : Separators) → IsProblem S f.problem → IsFamily S f → IsTurn S F f t
        → AreExact (length f.problem.lines) (akin_at t) ⊎ LeadsOn S F f t }
    ensures fits { (S : Scalars) (F : IsField S) (f : SetFamily) (t : Separators) (M : List ℕ) → IsProblem S f.problem → IsFamily S f → IsTurn S F f t
        → AreExact (length f.problem.lines) (akin_at t) → IsSetOf S f.problem (size_of f) M → FitsClasses S f.problem (akin_at t) M ⊎ LeadsOn S F f t }
{}
