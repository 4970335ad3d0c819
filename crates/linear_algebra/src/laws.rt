ghost use Rattle.std.specs.Prelude.{◌≡◌, ◌≤◌, ◌↔◌, ◌+◌, ◌++◌, ℕ, List, All, length};
ghost use Rattle.std.specs.List.{Contains};
ghost use Rattle.std.specs.Bool.{Decides};
ghost use Rattle.linear_algebra.specs.Scalars.{Scalars, IsField};
ghost use Rattle.linear_algebra.specs.Vectors.{AreVectors};
ghost use Rattle.linear_algebra.specs.Spans.{InSpan, IsIndependent};
ghost use Rattle.linear_algebra.specs.Ranks.{is_independent, selections, rank, rank_over};

/// The exchange lemma of Steinitz: an independent list within the span of another isn't longer.
/// Where it is as long, the other is independent too, and within its span.
pub fn exchange_lemma()
    ensures no_longer { (S : Scalars) (d : ℕ) (us vs : List (List ℕ)) → IsField S → AreVectors S d us → AreVectors S d vs
        → IsIndependent S d us → All (InSpan S d vs) us → length us ≤ length vs }
    ensures independent { (S : Scalars) (d : ℕ) (us vs : List (List ℕ)) → IsField S → AreVectors S d us → AreVectors S d vs
        → IsIndependent S d us → All (InSpan S d vs) us → length vs ≤ length us → IsIndependent S d vs }
    ensures spans { (S : Scalars) (d : ℕ) (us vs : List (List ℕ)) → IsField S → AreVectors S d us → AreVectors S d vs
        → IsIndependent S d us → All (InSpan S d vs) us → length vs ≤ length us → All (InSpan S d us) vs }
{}

/// The rank is the length of an independent selection of positions, and no independent selection is longer:
/// trying all coefficients, as the definition does, decides whether a list is independent.
pub fn rank_is_greatest()
    ensures decided { (S : Scalars) (d : ℕ) (vs : List (List ℕ)) → Decides (is_independent S d vs) (IsIndependent S d vs) }
    ensures reached { (S : Scalars) (d : ℕ) (vs : List (List ℕ))
        → (us : List (List ℕ)) × Contains (selections vs) us × IsIndependent S d us × (length us ≡ rank S d vs) }
    ensures greatest { (S : Scalars) (d : ℕ) (us vs : List (List ℕ)) → Contains (selections vs) us → IsIndependent S d us → length us ≤ rank S d vs }
{}

/// The rank is that of the span: lists with one span have one rank, a list within the span of another has no greater
/// one, and a list is independent exactly where its rank is its length.
pub fn rank_is_of_the_span()
    ensures independent { (S : Scalars) (d : ℕ) (vs : List (List ℕ)) → IsField S → AreVectors S d vs
        → (rank S d vs ≡ length vs) ↔ IsIndependent S d vs }
    ensures within { (S : Scalars) (d : ℕ) (us vs : List (List ℕ)) → IsField S → AreVectors S d us → AreVectors S d vs
        → All (InSpan S d vs) us → rank S d us ≤ rank S d vs }
    ensures same { (S : Scalars) (d : ℕ) (us vs : List (List ℕ)) → IsField S → AreVectors S d us → AreVectors S d vs
        → ((x : List ℕ) → InSpan S d us x ↔ InSpan S d vs x) → rank S d us ≡ rank S d vs }
{}

/// What a list adds to the rank of another: all of its own rank at most, the same wherever the spans are the same,
/// and no more to a list that spans more.
pub fn added_rank_is_of_the_spans()
    ensures at_most { (S : Scalars) (d : ℕ) (us vs : List (List ℕ)) → IsField S → AreVectors S d us → AreVectors S d vs
        → rank S d (us ++ vs) ≤ rank S d us + rank S d vs }
    ensures same { (S : Scalars) (d : ℕ) (us ws vs xs : List (List ℕ)) → IsField S → AreVectors S d us → AreVectors S d ws → AreVectors S d vs → AreVectors S d xs
        → ((x : List ℕ) → InSpan S d us x ↔ InSpan S d ws x) → ((x : List ℕ) → InSpan S d vs x ↔ InSpan S d xs x) → rank_over S d us vs ≡ rank_over S d ws xs }
    ensures less { (S : Scalars) (d : ℕ) (us ws vs : List (List ℕ)) → IsField S → AreVectors S d us → AreVectors S d ws → AreVectors S d vs
        → All (InSpan S d ws) us → rank_over S d ws vs ≤ rank_over S d us vs }
{}
