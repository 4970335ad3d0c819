ghost use Rattle.std.specs.Prelude.{◌≡◌, ◌↔◌, ℕ, List};
ghost use Rattle.linear_algebra.specs.Scalars.{Scalars, IsField};
ghost use Rattle.linear_algebra.specs.Spans.{InSpan, IsIndependent};
ghost use Rattle.quotients.specs.ReducedBases.{IsReducedBasis};

/// A subspace has one reduced echelon basis alone, and it is a basis: its rows are independent.
pub fn reduced_bases_are_unique()
    ensures unique { (S : Scalars) (d : ℕ) (us vs : List (List ℕ)) → IsField S → IsReducedBasis S d us → IsReducedBasis S d vs
        → ((x : List ℕ) → InSpan S d us x ↔ InSpan S d vs x) → us ≡ vs }
    ensures independent { (S : Scalars) (d : ℕ) (us : List (List ℕ)) → IsField S → IsReducedBasis S d us → IsIndependent S d us }
{}
