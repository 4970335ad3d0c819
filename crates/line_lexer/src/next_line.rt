ghost use Rattle.std.specs.Prelude.{◌+◌, drop};
ghost use Rattle.line_lexer.specs.Lines.{lines_from};
ghost use Rattle.line_lexer.specs.NextLine.{FindsLine};
ghost use Rattle.line_lexer.specs.Seen.{IsPlace};

use crate::first_line::{FirstLine, read_first_line};

/// The next line that isn't passed over, and the place where the lines after it begin, with how many lines come before.
#[derive(Clone, Copy, Drop)]
pub enum NextLine {
    /// There is none.
    End {
        passed: u32,
    },
    /// It begins at the place, and has a bad byte.
    Bad {
        at: usize,
        passed: u32,
    },
    /// Its words stand between `word` and `end`.
    Words {
        at: usize,
        passed: u32,
        word: usize,
        end: usize,
    },
}

/// Finds the next line that isn't passed over, from a place on.
pub fn find_next_line(bytes: &[u8], at: usize, passed: u32) -> NextLine
    requires { IsPlace bytes.now at passed }
    ensures { FindsLine bytes.now (lines_from (passed + 1) (drop at bytes.now)) result }
{
    let mut at = at;
    let mut passed = passed;
    while at < bytes.len() {
        let (found, next) = read_first_line(&bytes[at..]);
        match found {
            FirstLine::Bad => return NextLine::Bad { at, passed },
            FirstLine::Words { start, end } => {
                return NextLine::Words {
                    at: at + next,
                    passed: passed + 1,
                    word: at + start,
                    end: at + end,
                };
            }
            FirstLine::Passed => {}
        }
        at += next;
        passed += 1;
    }
    NextLine::End { passed }
}
