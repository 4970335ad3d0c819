ghost use Rattle.std.specs.Prelude.{◌≡◌, ◌↔◌, suc, ◌∷◌, ℕ, List};
ghost use Rattle.linear_algebra.specs.Scalars.{Scalars, IsField};
ghost use Rattle.linear_algebra.specs.Vectors.{IsVector, AreVectors};
ghost use Rattle.linear_algebra.specs.Spans.{InSpan, IsIndependent};
ghost use Rattle.linear_algebra.specs.Ranks.{rank_over};
ghost use Rattle.quotient_spaces.specs.Projections.{IsPivot, IsProjection, AreProjections, lifted};

/// Each vector has one projection, which is a vector one coordinate shorter, and each shorter vector is the
/// projection of its lift.
pub fn projections_are_unique()
    ensures exists { (S : Scalars) (d : ℕ) (p : List ℕ) (i : ℕ) (v : List ℕ) → IsField S → IsVector S (suc d) p → IsPivot S p i
        → IsVector S (suc d) v → (w : List ℕ) × IsProjection S p i v w × IsVector S d w }
    ensures unique { (S : Scalars) (d : ℕ) (p : List ℕ) (i : ℕ) (v w u : List ℕ) → IsField S → IsVector S (suc d) p → IsPivot S p i
        → IsVector S (suc d) v → IsProjection S p i v w → IsProjection S p i v u → w ≡ u }
    ensures lifted { (S : Scalars) (d : ℕ) (p : List ℕ) (i : ℕ) (w : List ℕ) → IsField S → IsVector S (suc d) p → IsPivot S p i
        → IsVector S d w → IsProjection S p i (lifted S i w) w }
{}

/// Projections are vectors modulo p: they are independent, span and have ranks as the vectors have with p in front.
pub fn projections_are_modulo_the_point()
    ensures independent { (S : Scalars) (d : ℕ) (p : List ℕ) (i : ℕ) (vs ws : List (List ℕ)) → IsField S → IsVector S (suc d) p → IsPivot S p i
        → AreVectors S (suc d) vs → AreProjections S p i vs ws → IsIndependent S (suc d) (p ∷ vs) ↔ IsIndependent S d ws }
    ensures spans { (S : Scalars) (d : ℕ) (p : List ℕ) (i : ℕ) (vs ws : List (List ℕ)) (x y : List ℕ) → IsField S → IsVector S (suc d) p → IsPivot S p i
        → AreVectors S (suc d) vs → IsVector S (suc d) x → AreProjections S p i vs ws → IsProjection S p i x y
        → InSpan S (suc d) (p ∷ vs) x ↔ InSpan S d ws y }
    ensures ranks { (S : Scalars) (d : ℕ) (p : List ℕ) (i : ℕ) (us vs us' vs' : List (List ℕ)) → IsField S → IsVector S (suc d) p → IsPivot S p i
        → AreVectors S (suc d) us → AreVectors S (suc d) vs → AreProjections S p i us us' → AreProjections S p i vs vs'
        → rank_over S (suc d) (p ∷ us) vs ≡ rank_over S d us' vs' }
{}
