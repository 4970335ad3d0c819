ghost use Rattle.std.specs.Prelude.{◌≡◌, ◌↔◌, ℕ, List};
ghost use Rattle.linear_algebra.specs.Scalars.{Scalars, IsField};
ghost use Rattle.linear_algebra.specs.Vectors.{IsVector, AreVectors, zero_vector};
ghost use Rattle.linear_algebra.specs.Spans.{InSpan};
ghost use Rattle.echelon.specs.Residues.{IsResidue, IsCongruent};

/// Residues tell the cosets of a span: two vectors have the same residue exactly where one is the other plus
/// an element of the span, and the residue of a vector of the span is zero.
pub fn residues_tell_the_span()
    ensures same { (S : Scalars) (d : ℕ) (vs : List (List ℕ)) (v w a b : List ℕ) → IsField S → AreVectors S d vs → IsVector S d v → IsVector S d w
        → IsResidue S d vs v a → IsResidue S d vs w b → (a ≡ b) ↔ IsCongruent S d vs v w }
    ensures spanned { (S : Scalars) (d : ℕ) (vs : List (List ℕ)) (v a : List ℕ) → IsField S → AreVectors S d vs → IsVector S d v
        → InSpan S d vs v → IsResidue S d vs v a → a ≡ zero_vector S d }
{}
