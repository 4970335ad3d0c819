//! The command `convert`.

ghost use Rattle.std.specs.Prelude.{◌≡◌, ◌++◌, IfOk, OnOk};
ghost use Rattle.parity_program.specs.Replies.{IsConversionReply, conversion_reply, offset_line};
ghost use Rattle.parity_program.specs.Shown.{Suits, shown};
ghost use Rattle.parity_program.specs.declared.command.GraphObject.TheVariants.{Converted};

use crate::Convertible;
use crate::reply::Reply;
use field_core::Field;
use graph_core::Graph;
use parity_lines::Problem;
use parity_text::write_problem;
use std::alloc::{AllocError, Global};
use text_forms::put_decimal;

/// Puts the line of the offset last: how much larger the problem's largest sets are than the objects.
fn put_offset(out: &mut Vec<u8>, offset: usize) -> Result<(), AllocError>
    ensures { OnOk result (out.new.items ≡ out.old.items ++ offset_line offset) }
{
    out.extend_from_slice(b"# offset ")?;
    put_decimal(out, offset as u128)?;
    out.extend_from_slice(b"\n")
}

/// The text of a problem behind the offset.
fn converted<F: Field>(
    alloc: Global,
    offset: usize,
    problem: &Problem<F>,
) -> Result<Reply, AllocError>
    ensures { IfOk result (λ reply. shown reply ≡ conversion_reply F.scalars.order offset problem.now) }
{
    let mut text = Vec::new(alloc);
    put_offset(&mut text, offset)?;
    write_problem(&mut text, problem)?;
    Ok(Reply::done(text))
}

/// The text of the problem by which the object is found.
pub fn convert(alloc: Global, object: Convertible, graph: &Graph) -> Result<Reply, AllocError>
    requires { Suits (Converted object) graph.now }
    ensures { IfOk result (λ reply. IsConversionReply object graph.now (shown reply)) }
{
    match object {
        Convertible::Matching => converted(alloc, 0, &matching_front::to_parity(alloc, graph)?),
        Convertible::Cactus => converted(alloc, 0, &cactus_front::to_parity(alloc, graph)?),
        Convertible::PathFamily => {
            let paths = s_paths_front::to_parity(alloc, graph)?;
            converted(alloc, paths.offset, &paths.problem)
        }
        Convertible::Rotation => converted(alloc, 0, &genus_front::to_parity(alloc, graph)?),
    }
}
