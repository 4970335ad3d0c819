//! Vector spaces over a finite field, as pure mathematics: closures with exchange and their ranks,
//! fields and spaces by their laws, spans, combinations, independence, bases, linear maps and quotients by a point.
//!
//! The crate has no code. Everything is stated and proved in `proofs/`, over any field `f` and space `s`,
//! and is cited by the proofs of the crates above; `linear_algebra` carries it over to lists of numbers.
//! From the bottom up: `Members`, `Sublists`, `Middles`, `Distinct`, `Closure`, `Ranks` (no algebra at all); `Space`,
//! `Span`, `Combination`, `Within`, `Independence`, `Bases`, `Splits`, `Meets`, `Pivots`, `Dependence`; `Tuples`,
//! `Pairs`, `Determinants`, `Uniqueness`, `LinearMaps`; `Quotients`, `CoordinateQuotients`, `TupleQuotients`,
//! `IteratedQuotients`.
//!
//! What most rests on: `Independence` counts (an independent list within the span of another is no longer than that,
//! and spans it where it is as long), `Splits` has unique splits over independent lists, `Meets` a basis of the meeting
//! of two spans, `Quotients` spans and independence modulo a point. `Distinct` is about lists without repetition.
#![tactic(auto)]
