//! The theory of linear matroid parity over any space, as pure mathematics: lines, places, exchanges, overlaps.
//!
//! The crate has no code; `proofs/` is cited by the proofs of the crates above. `Lines` has lines, which are
//! pairs of vectors known by their positions, and coordinates over a list of lines; `Positions`, `LineSets`,
//! `Entries`, `Coordinates`, `Uniqueness` and `Supports` have what follows.
//!
//! `Duality` and `Parts` prove the easy half of the min-max theorem: a kernel and parts bound the size of every
//! independent set of lines. `Certificates` lifts a kernel and parts from the space modulo a point, and
//! `Contraction` tells which lines are independent there.
//!
//! Over an independent set of lines, `Places` gives each line its place: inside the span, single, exposed or free.
//! `Exposure` has the tip and the outer of an exposed line, `Exchanges` puts such a line in the place of one of its
//! tip's support, `Steps` and `DirectSteps` put two lines in the place of one, and `Widths` has lists of which two
//! vectors are missed.
//!
//! Walks toward a target: `StepsToward` makes one exchange, `Settling` says where there is none and what follows,
//! `Nearness` is the measure, and `Walks` joins steps and keeps an invariant (`walk_toward`). `Transitivity` shares out
//! what two sets miss. `Overlaps` has the pairs of exposed lines whose supports have a common line; `Ratios`,
//! `SupportSums`, `OverlapTerms` and `OverlapRelations` lead to `OverlapPoints`: the point of an overlap, which each
//! dependent set of its lines spans. `Raising` makes a larger set of a set that misses it. `Circuits`, by
//! `CarriedSupports`, says how an exposed line and a line of its support fare along a walk.
#![tactic(auto)]
