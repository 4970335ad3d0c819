//! Laws of the replies.

ghost use Rattle.std.specs.Prelude.{◌≡◌, ℕ, List, Ok};
ghost use Rattle.generator.specs.GeneratedProblems.{IsGeneratedProblem};
ghost use Rattle.graph_core.specs.NamedGraphs.{NamedGraph};
ghost use Rattle.parity_lines.specs.Problems.{ParityProblem};
ghost use Rattle.parity_program.specs.Inputs.{reading};
ghost use Rattle.parity_program.specs.Inputs.Input.{of_graph, posed};
ghost use Rattle.parity_program.specs.Replies.{IsConversion, IsOffsetOf, conversion_reply, order_for, problem_reply};
ghost use Rattle.parity_program.specs.declared.command.Command.TheVariants.{OfText};
ghost use Rattle.parity_program.specs.declared.command.Convertible.{Convertible};
ghost use Rattle.parity_program.specs.declared.command.GraphCommand.TheVariants.{Convert};
ghost use Rattle.parity_program.specs.declared.command.ProblemCommand.TheVariants.{Solve};
ghost use Rattle.parity_program.specs.declared.command.TextCommand.TheVariants.{OverGraph, OverProblem};

use graph_text::graphs_are_within_limits;

/// What `convert` writes is accepted by `solve`, as the problem of the conversion.
pub fn conversions_are_solvable()
    ensures { (object : Convertible) (bytes : List ℕ) (g : NamedGraph) (p : ParityProblem) (offset : ℕ)
        → reading (OfText (OverGraph (Convert object))) bytes ≡ Ok (of_graph (Convert object) g)
        → IsConversion object g p → IsOffsetOf object g offset
        → reading (OfText (OverProblem Solve)) (conversion_reply (order_for object) offset p).text ≡ Ok (posed (order_for object) p) }
{
    graphs_are_within_limits();
}

/// What `generate` writes is accepted by `solve`, as the problem of the number.
pub fn generated_problems_are_solvable()
    ensures { (n : ℕ) (p : ParityProblem) → IsGeneratedProblem n p
        → reading (OfText (OverProblem Solve)) (problem_reply p).text ≡ Ok (posed 2 p) }
{}
