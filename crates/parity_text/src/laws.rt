ghost use Rattle.std.specs.Prelude.{◌≡◌, ℕ, ◌↔◌, List, [], ◌++◌, length, Ok};
ghost use Rattle.std.specs.List.{Contains};
ghost use Rattle.line_lexer.specs.Lines.{Line, lines_from};
ghost use Rattle.line_lexer.specs.Words.{spelled};
ghost use Rattle.linear_algebra.specs.Scalars.{Scalars};
ghost use Rattle.parity_lines.specs.LineSets.{IsLineSet};
ghost use Rattle.parity_lines.specs.Problems.{ParityProblem};
ghost use Rattle.parity_text.specs.Files.{problem_file, answer_file, choice_file};
ghost use Rattle.parity_text.specs.Spelled.{problem_lines, answer_lines, choice_lines};
ghost use Rattle.parity_text.specs.Spells.{SpellsHead, SpellsProblem, SpellsAnswer, SpellsChoice, SpellsProblemText, SpellsAnswerText};
ghost use Rattle.parity_text.specs.Spells.{SpellsChoiceText};
ghost use Rattle.parity_text.specs.Texts.{head, problem, answer, choice};
ghost use Rattle.parity_text.specs.Values.{AnswerValue, IsWithinLimits, IsAnswerTo};
ghost use Rattle.small_fields.specs.FieldName.{field_orders};
ghost use Rattle.text_forms.specs.Causality.{GivesCausally, RefusesCausally};
ghost use Rattle.text_forms.specs.Forms.{of_text};
ghost use Rattle.text_forms.specs.Spelling.{Takes};

/// A text has a value exactly where its lines of words are those of the value's form, each number by a numeral of it.
pub fn texts_give_what_is_spelled()
    ensures head { Takes SpellsHead head }
    ensures problem { (q : ℕ) → Takes (SpellsProblem q) (problem q) }
    ensures answer { (q d lines : ℕ) → Takes (SpellsAnswer q d lines) (answer q d lines) }
    ensures choice { (lines : ℕ) → Takes (SpellsChoice lines) (choice lines) }
{}

/// The bytes of a whole text have a value exactly where all of their lines, in order, spell it.
pub fn files_give_what_is_spelled()
    ensures problem { (bytes : List ℕ) (q : ℕ) (p : ParityProblem) →
        (of_text problem_file bytes ≡ Ok ((q, p), [])) ↔ SpellsProblemText q p (lines_from 1 bytes) }
    ensures answer { (bytes : List ℕ) (q : ℕ) (p : ParityProblem) (a : AnswerValue) →
        (of_text answer_file bytes ≡ Ok (((q, p), a), [])) ↔ SpellsAnswerText q p a (lines_from 1 bytes) }
    ensures choice { (bytes : List ℕ) (q : ℕ) (p : ParityProblem) (set : List ℕ) →
        (of_text choice_file bytes ≡ Ok (((q, p), set), [])) ↔ SpellsChoiceText q p set (lines_from 1 bytes) }
{}

/// What a text gives depends on the lines that it takes alone, and its refusal on the lines up to the refused one.
pub fn texts_are_causal()
    ensures head { GivesCausally head × RefusesCausally head }
    ensures problem { (q : ℕ) → GivesCausally (problem q) × RefusesCausally (problem q) }
    ensures answer { (q d lines : ℕ) → GivesCausally (answer q d lines) × RefusesCausally (answer q d lines) }
    ensures choice { (lines : ℕ) → GivesCausally (choice lines) × RefusesCausally (choice lines) }
    ensures problem_file { RefusesCausally problem_file }
    ensures answer_file { RefusesCausally answer_file }
    ensures choice_file { RefusesCausally choice_file }
{}

/// What is read is within the limits, and belongs to the problem.
pub fn values_are_within_limits()
    ensures head { (last q : ℕ) (text rest : List Line) → head last text ≡ Ok (q, rest) → Contains field_orders q }
    ensures problem { (S : Scalars) (p : ParityProblem) (last : ℕ) (text rest : List Line) → Contains field_orders S.order
        → problem S.order last text ≡ Ok (p, rest) → IsWithinLimits S p }
    ensures answer { (S : Scalars) (p : ParityProblem) (a : AnswerValue) (last : ℕ) (text rest : List Line)
        → answer S.order p.dimension (length p.lines) last text ≡ Ok (a, rest) → IsAnswerTo S p a }
    ensures choice { (p : ParityProblem) (set : List ℕ) (last : ℕ) (text rest : List Line)
        → choice (length p.lines) last text ≡ Ok (set, rest) → IsLineSet p set }
{}

/// What is written is read again as the same value.
pub fn written_texts_are_read()
    ensures problem { (S : Scalars) (p : ParityProblem) → IsWithinLimits S p
        → of_text problem_file (spelled (problem_lines S.order p)) ≡ Ok ((S.order, p), []) }
    ensures answer { (S : Scalars) (p : ParityProblem) (a : AnswerValue) → IsWithinLimits S p → IsAnswerTo S p a
        → of_text answer_file (spelled (problem_lines S.order p ++ answer_lines a)) ≡ Ok (((S.order, p), a), []) }
    ensures choice { (S : Scalars) (p : ParityProblem) (set : List ℕ) → IsWithinLimits S p → IsLineSet p set
        → of_text choice_file (spelled (problem_lines S.order p ++ choice_lines set)) ≡ Ok (((S.order, p), set), []) }
{}
