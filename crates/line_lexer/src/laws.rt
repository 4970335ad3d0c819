ghost use Rattle.std.specs.Prelude.{◌≡◌, ℕ, ◌+◌, List, ◌++◌, length, Bool, Result, Err};
ghost use Rattle.std.specs.List.{AllByRecursion};
ghost use Rattle.line_lexer.specs.Lines.{lines, lines_from};
ghost use Rattle.line_lexer.specs.Seen.{Seen};
ghost use Rattle.line_lexer.specs.Calls.{GoesOn, SameLine};
ghost use Rattle.line_lexer.specs.Words.{AreWords, HasWords, IsNumberedWithin, spelled, as_lines};
ghost use Rattle.line_lexer.specs.declared.fault.LexFault.{LexFault};

/// After a fault each later call of `next_line` answers the same fault, whatever words are asked for between.
pub fn a_fault_stays()
    ensures { (first second third fourth : Seen) (fault : LexFault) (answer : Result Bool LexFault) →
        GoesOn first second (Err fault) → SameLine second third → GoesOn third fourth answer → answer ≡ Err fault }
{}

/// A line that isn't passed over has a bad byte, or words, none of them empty or with a hash; and its number is one of
/// those of the text.
pub fn lines_have_words()
    ensures words { (n : ℕ) (bytes : List ℕ) → AllByRecursion HasWords (lines_from n bytes) }
    ensures numbers { (n : ℕ) (bytes : List ℕ) →
        AllByRecursion (IsNumberedWithin n (n + length (lines bytes))) (lines_from n bytes) }
{}

/// Lines of words that are written with one space between words and a newline at each line's end are read as those
/// lines, whatever follows.
pub fn spelled_lines_are_read()
    ensures lines { (n : ℕ) (ls : List (List (List ℕ))) (rest : List ℕ) → AllByRecursion AreWords ls
        → lines_from n (spelled ls ++ rest) ≡ as_lines n ls ++ lines_from (n + length ls) rest }
    ensures count { (ls : List (List (List ℕ))) (rest : List ℕ) → AllByRecursion AreWords ls
        → length (lines (spelled ls ++ rest)) ≡ length ls + length (lines rest) }
{}
