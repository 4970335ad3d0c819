//! The members of a family, each with the span of its vectors.

ghost use Rattle.std.specs.Prelude.{◌≡◌, ◌<◌, All, IfOk, MatchOption, length, map};
ghost use Rattle.parity_lines.specs.Problems.{vectors_at};
ghost use Rattle.families.specs.Families.{Spans};
ghost use Rattle.families.specs.Members.{HasItsSpan, IsFirstOutside, IsSubspaceOf, SpansOf};

use field_core::{Field, Rows};
use parity_lines::{LineSet, Problem};
use quotients::Subspace;
use std::alloc::{AllocError, Global};

/// A set of lines, with the span of its vectors.
#[derive(Drop)]
pub struct Member<F: Field> {
    pub set: LineSet,
    pub span: Subspace<F>,
}

/// The vectors of the lines, two a line, in order.
fn vectors_of<F: Field>(
    alloc: Global,
    problem: &Problem<F>,
    set: &LineSet,
) -> Result<Rows<F>, AllocError>
    requires { All (λ m. m < length problem.now.lines) set.now }
    ensures { IfOk result (λ rows. rows ≡ record { width = problem.now.dimension; rows = vectors_at problem.now set.now }) }
{
    let mut rows = Rows::new(alloc, problem.dimension());
    for i in 0..set.len() {
        let line = set.at(i);
        rows.push(problem.first(line))?;
        rows.push(problem.second(line))?;
    }
    Ok(rows)
}

/// The span of the vectors of the lines.
pub fn span_of<F: Field>(
    alloc: Global,
    problem: &Problem<F>,
    set: &LineSet,
) -> Result<Subspace<F>, AllocError>
    requires { All (λ m. m < length problem.now.lines) set.now }
    ensures { IfOk result (λ space. IsSubspaceOf F.scalars problem.now space (λ v. Spans F.scalars problem.now v set.now)) }
{
    let vectors = vectors_of(alloc, problem, set)?;
    Subspace::spanned(alloc, problem.dimension(), &vectors)
}

/// The set with its span.
pub fn member_of<F: Field>(
    alloc: Global,
    problem: &Problem<F>,
    set: &LineSet,
) -> Result<Member<F>, AllocError>
    requires { All (λ m. m < length problem.now.lines) set.now }
    ensures set { IfOk result (λ member. member.set ≡ set.now) }
    ensures span { IfOk result (λ member. HasItsSpan F.scalars problem.now member) }
{
    let span = span_of(alloc, problem, set)?;
    let set = set.copied()?;
    Ok(Member { set, span })
}

/// The first member in whose span `v` isn't.
pub fn first_outside<F: Field>(members: &[Member<F>], v: &[F]) -> Result<Option<usize>, AllocError>
    requires { All (λ m. m.span.width ≡ length v.now) members.now }
    ensures { IfOk result (λ found. MatchOption found
        (All (SpansOf F.scalars (map F.number v.now)) members.now)
        (IsFirstOutside F.scalars members.now (map F.number v.now))) }
{
    for (i, member) in members.iter().enumerate() {
        if !member.span.contains(v)? {
            return Ok(Some(i));
        }
    }
    Ok(None)
}
