//! Sets of lines, with a line put in and left out.

use crate::asserting::assert_text;
use line_lexer::Lexer;
use parity_lines::LineSet;
use parity_text::read_set;
use std::alloc::{AllocError, Global};
use std::process::Abort;
use std::test::Fail;
use worked_texts::shown_set;

/// Asserts what the set is with a line, and without it.
fn assert_sets(
    rt: &impl Abort,
    alloc: Global,
    set: &LineSet,
    line: usize,
    with: &str,
    without: &str,
) -> Result<(), AllocError> {
    assert_text(rt, shown_set(alloc, &set.with(line)?)?.as_str(), with);
    assert_text(rt, shown_set(alloc, &set.without(line)?)?.as_str(), without);
    Ok(())
}

#[test]
fn lines_are_put_in_and_left_out(rt: HostRuntime) -> Result<(), Fail> {
    let alloc = rt.alloc();
    let text = "choice 1\nsize 3\nset 2 3 5\nend\n";
    let set = read_set(alloc, &mut Lexer::new(text.as_bytes()), 9).expect(&rt, "a choice");
    assert!(rt; set.holds(4) && !set.holds(3));
    assert_sets(&rt, alloc, &set, 0, "1 2 3 5", "2 3 5")?;
    assert_sets(&rt, alloc, &set, 1, "2 3 5", "3 5")?;
    assert_sets(&rt, alloc, &set, 2, "2 3 5", "2 5")?;
    assert_sets(&rt, alloc, &set, 3, "2 3 4 5", "2 3 5")?;
    assert_sets(&rt, alloc, &set, 4, "2 3 5", "2 3")?;
    assert_sets(&rt, alloc, &set, 7, "2 3 5 8", "2 3 5")?;
    Ok(())
}
