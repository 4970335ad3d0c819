ghost use Rattle.std.specs.Prelude.{◌<◌, ℕ, List};
ghost use Rattle.linear_algebra.specs.Scalars.{Scalars, IsField};
ghost use Rattle.linear_algebra.specs.Spans.{Combines};
ghost use Rattle.packed_rows.specs.Carried.{carried};
ghost use Rattle.coordinates.specs.Bases.{IsBasis};

/// A vector of a basis may be carried to another place, and coordinates with it.
pub fn a_vector_is_carried()
    ensures basis { (S : Scalars) (d : ℕ) (vs : List (List ℕ)) (from to : ℕ) → IsField S → IsBasis S d vs → from < d → to < d
        → IsBasis S d (carried vs from to) }
    ensures coordinates { (S : Scalars) (d : ℕ) (vs : List (List ℕ)) (from to : ℕ) (cs x : List ℕ) → IsField S → IsBasis S d vs → from < d → to < d
        → Combines S d vs cs x → Combines S d (carried vs from to) (carried cs from to) x }
{}
