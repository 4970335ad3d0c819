ghost use Rattle.std.specs.Prelude.{◌≡◌, ◌≢◌, ◌≤◌, ◌<◌, ◌-◌, ◌↔◌, ◌++◌, ℕ, List, length, map, take, drop, slice_set, slice_index_or};
ghost use Rattle.std.specs.List.{AllZip, swap};
ghost use Rattle.linear_algebra.specs.Scalars.{Scalars, IsField};
ghost use Rattle.linear_algebra.specs.Vectors.{IsVector, zero_vector};
ghost use Rattle.linear_algebra.specs.Spans.{Combines, InSpan, IsIndependent};
ghost use Rattle.coordinates.specs.Bases.{IsBasis, IsPivoted, unit_vectors};

/// Over a basis each vector has coordinates, and only one list of them.
pub fn coordinates_are_unique()
    ensures exist { (S : Scalars) (d : ℕ) (vs : List (List ℕ)) (x : List ℕ) → IsField S → IsBasis S d vs → IsVector S d x → InSpan S d vs x }
    ensures unique { (S : Scalars) (d : ℕ) (vs : List (List ℕ)) (x cs ds : List ℕ) → IsField S → IsBasis S d vs
        → Combines S d vs cs x → Combines S d vs ds x → cs ≡ ds }
{}

/// The unit vectors are a basis, over which each vector is its own list of coordinates.
pub fn unit_vectors_are_a_basis()
    ensures basis { (S : Scalars) (d : ℕ) → IsField S → IsBasis S d (unit_vectors S d) }
    ensures coordinates { (S : Scalars) (d : ℕ) (v : List ℕ) → IsField S → IsVector S d v → Combines S d (unit_vectors S d) v v }
{}

/// A vector may come into a basis at each place where its coordinate isn't zero. All coordinates are pivoted then:
/// one elimination.
pub fn a_vector_replaces_another()
    ensures basis { (S : Scalars) (d : ℕ) (vs : List (List ℕ)) (i : ℕ) (ts y : List ℕ) → IsField S → IsBasis S d vs → i < d
        → Combines S d vs ts y → slice_index_or ts i 0 ≢ S.zero → IsBasis S d (slice_set vs i y) }
    ensures coordinates { (S : Scalars) (d : ℕ) (vs : List (List ℕ)) (i : ℕ) (ts cs ds y x : List ℕ) → IsField S → IsBasis S d vs → i < d
        → Combines S d vs ts y → Combines S d vs cs x → IsPivoted S i ts cs ds → Combines S d (slice_set vs i y) ds x }
{}

/// Two vectors of a basis may change places, and coordinates with them.
pub fn two_vectors_change_places()
    ensures basis { (S : Scalars) (d : ℕ) (vs : List (List ℕ)) (i j : ℕ) → IsField S → IsBasis S d vs → i < d → j < d → IsBasis S d (swap vs i j) }
    ensures coordinates { (S : Scalars) (d : ℕ) (vs : List (List ℕ)) (i j : ℕ) (cs x : List ℕ) → IsField S → IsBasis S d vs → i < d → j < d
        → Combines S d vs cs x → Combines S d (swap vs i j) (swap cs i j) x }
{}

/// The coordinates behind the first k tell what the first k vectors of a basis span, and which vectors are independent
/// of them.
pub fn tails_tell_what_the_front_spans()
    ensures spanned { (S : Scalars) (d k : ℕ) (vs : List (List ℕ)) (cs x : List ℕ) → IsField S → IsBasis S d vs → k ≤ d → Combines S d vs cs x
        → InSpan S d (take k vs) x ↔ (drop k cs ≡ zero_vector S (d - k)) }
    ensures coordinates { (S : Scalars) (d k : ℕ) (vs : List (List ℕ)) (cs x : List ℕ) → IsField S → IsBasis S d vs → k ≤ d → Combines S d vs cs x
        → drop k cs ≡ zero_vector S (d - k) → Combines S d (take k vs) (take k cs) x }
    ensures independent { (S : Scalars) (d k : ℕ) (vs css xs : List (List ℕ)) → IsField S → IsBasis S d vs → k ≤ d → AllZip (Combines S d vs) css xs
        → IsIndependent S d (take k vs ++ xs) ↔ IsIndependent S (d - k) (map (drop k) css) }
{}
