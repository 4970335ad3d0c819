//! Families of independent sets of lines of one size, and what their spans have in common.
//!
//! [`Family`] is seen as a problem and the list of the family's members (`SetFamily` in `specs/Families.antt`); it
//! has a first member from the start, and grows by sets that are as long. [`Family::common`] is the subspace of the
//! vectors that all members span, [`Family::member_missing`] finds the first member that doesn't span a vector. The
//! span of each member is kept, so that a vector costs one elimination a member, and a new member one intersection.
#![tactic(auto)]

mod family;
mod member;

pub use family::Family;
