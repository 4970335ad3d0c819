//! What `check`, `improve` and the readers of graphs say of each input that is refused, judged or improved.

use crate::inputs::{HUB, STAR, TWO_LINES, path};
use crate::rows::{assert_rows, assert_tables, lines};
use std::test::Fail;

/// Answers, behind the problems that they are answers to.
const VERDICTS: [(&str, &str); 4] = [
    (
        STAR,
        "answer 1 / size 1 / set 2 / kernel 1 / vector 1 0 0 0 / parts 3 / part 1 / part 2 / part 3 / end => done => yes
answer 1 / size 2 / set 1 2 / kernel 1 / vector 1 0 0 0 / parts 3 / part 1 / part 2 / part 3 / end => no => no dependent
answer 1 / size 1 / set 2 / kernel 2 / vector 1 0 0 0 / vector 1 0 0 0 / parts 3 / part 1 / part 2 / part 3 / end => no => no kernel dependent
answer 1 / size 1 / set 2 / kernel 1 / vector 1 0 0 0 / parts 3 / part 1 3 / part 2 / part 3 / end => no => no twice 3
answer 1 / size 1 / set 2 / kernel 0 / parts 1 / part 1 2 3 / end => no => no bound 1 2",
    ),
    (
        TWO_LINES,
        "answer 1 / size 2 / set 1 2 / kernel 0 / parts 1 / part 1 2 / end => done => yes
answer 1 / size 2 / set 1 2 / kernel 0 / parts 1 / part 1 / end => no => no missing 2",
    ),
    (
        HUB,
        "answer 1 / size 4 / set 1 3 4 7 / kernel 1 / vector 1 0 0 0 0 0 0 0 0 0 / parts 3 / part 1 2 3 / part 4 5 6 / part 7 8 9 / end => done => yes",
    ),
    (
        "",
        "parity 1 / field 256 / dimension 2 / lines 1 / line 83 1 | 1 202 / answer 1 / size 0 / set / kernel 0 / parts 1 / part 1 / end => done => yes
parity 1 / field 256 / dimension 2 / lines 1 / line 83 1 | 1 203 / answer 1 / size 0 / set / kernel 0 / parts 1 / part 1 / end => no => no bound 0 1
parity 1 / field 5 / dimension 2 / lines 1 / line 1 2 | 2 4 / answer 1 / size 1 / set 1 / kernel 0 / parts 1 / part 1 / end => no => no dependent
parity 1 / field 251 / dimension 2 / lines 1 / line 250 0 | 0 250 / answer 1 / size 1 / set 1 / kernel 0 / parts 1 / part 1 / end => done => yes
parity 1 / field 3 / dimension 2 / lines 1 / line 1 2 | 2 2 / answer 1 / size 1 / set 1 / kernel 0 / parts 1 / part 1 / end => done => yes
# one\r / \r / parity 000000001 # two\r / \tfield  003\r / dimension 1\r / lines 01\r / line 2 | 000000000\r / answer 1 / size 0 / set / kernel 0 / parts 1 / part 1#\u{ff}\0 / end\t => done => yes
parity 1 / field 5 / dimension 0 / lines 2 / line | /  / line\t| # \u{80} / answer 1 / size 0 / set / kernel 0 / parts 1 / part 1 2 / end => done => yes
parity 1 / field 2 / dimension 128 / lines 0 / answer 1 / size 0 / set / kernel 0 / parts 0 / end => done => yes",
    ),
];

/// Sets of lines, each behind a problem.
const IMPROVEMENTS: &str =
    "parity 1 / field 3 / dimension 4 / lines 3 / line 1 0 0 0 | 0 1 0 0 / line 2 0 0 0 | 0 0 1 0 / line 0 2 0 0 | 0 0 1 1 / choice 1 / size 1 / set 1 / end => done => choice 1 / size 2 / set 2 3 / end
parity 1 / field 2 / dimension 2 / lines 1 / line 1 0 | 0 1 / choice 1 / size 0 / set / end => done => choice 1 / size 1 / set 1 / end
parity 1 / field 2 / dimension 4 / lines 3 / line 1 0 0 0 | 0 1 0 0 / line 1 0 0 0 | 0 0 1 0 / line 1 0 0 0 | 0 0 0 1 / choice 1 / size 1 / set 1 / end => done => none
parity 1 / field 2 / dimension 6 / lines 5 / line 1 0 0 0 0 0 | 0 1 0 0 0 0 / line 0 1 0 0 0 0 | 0 0 1 0 0 0 / line 0 0 1 0 0 0 | 0 0 0 1 0 0 / line 0 0 0 1 0 0 | 0 0 0 0 1 0 / line 0 0 0 0 1 0 | 0 0 0 0 0 1 / choice 1 / size 2 / set 2 4 / end => done => none
parity 1 / field 2 / dimension 2 / lines 0 / choice 1 / size 0 / set / end => done => none
parity 1 / field 256 / dimension 2 / lines 1 / line 83 1 | 1 202 / choice 1 / size 1 / set 1 / end => no => no dependent / relation 1 83
parity 1 / field 5 / dimension 2 / lines 1 / line 1 2 | 2 4 / choice 1 / size 1 / set 1 / end => no => no dependent / relation 1 2";

/// What is refused at the head, at the sizes and at the lines of a problem.
const REFUSED_PROBLEMS: [(&str, &str); 3] = [
    (
        "",
        " => bad text: line 1: missing
 / # one => bad text: line 3: missing
matrix 1 => bad text: line 1: word
party 2\u{80} => bad text: line 1: byte
party\r 2 => bad text: line 1: byte
party 2\r\r => bad text: line 1: byte
party 2 3 => bad text: line 1: word
parity => bad text: line 1: count
parity one two => bad text: line 1: number
parity 0000000001 => bad text: line 1: number
parity 1234567890 => bad text: line 1: number
parity +1 => bad text: line 1: number
parity 2 3 => bad text: line 1: version
parity 1 3 => bad text: line 1: count
parity 1 => bad text: line 2: missing
parity 1 / field 4 \x07 => bad text: line 2: byte
parity 1 / feld 4 2 => bad text: line 2: word
parity 1 / field => bad text: line 2: count
parity 1 / field -2 => bad text: line 2: number
parity 1 / field 4 2 => bad text: line 2: field
parity 1 / field 65538 => bad text: line 2: field
parity 1 / field 2 2 => bad text: line 2: count",
    ),
    (
        "parity 1 / field 2",
        " => bad text: line 3: missing
lines 129 => bad text: line 3: word
dimension => bad text: line 3: count
dimension d 1 => bad text: line 3: number
dimension 4\0 => bad text: line 3: byte
dimension 129 1 => limit: dimension 129
dimension 128 1 => bad text: line 3: count
dimension 1 => bad text: line 4: missing
dimension 1 / line 2049 => bad text: line 4: word
dimension 1 / lines => bad text: line 4: count
dimension 1 / lines 1.0 => bad text: line 4: number
dimension 1 / lines 2049 x => limit: lines 2049
dimension 1 / lines 2048 => bad text: line 5: missing
dimension 1 / lines 0 0 => bad text: line 4: count
dimension 0 / lines 0 => bad text: line 5: missing",
    ),
    (
        "parity 1 / field 251 / dimension 2 / lines 2",
        " => bad text: line 5: missing
row 251 0 => bad text: line 5: word
line 1 => bad text: line 5: count
line 1 | 0 1 => bad text: line 5: number
line 1 251 0 1 => bad text: line 5: range
line 250 0 | 0 251 => bad text: line 5: range
line 1 250 0 x => bad text: line 5: word
line 1 250 => bad text: line 5: count
line 1 250 | 0 => bad text: line 5: count
line 1 250 | 65536 x => bad text: line 5: range
line 1 250 | 0 1 0 => bad text: line 5: count
line 1 250 | 0 1 /  / line 0 0 | 0 251 => bad text: line 7: range",
    ),
];

/// Behind three lines, what is refused at an answer.
const REFUSED_SETS: &str = "line 1 0 0 0 | 0 1 0 0 => bad text: line 8: word
choice 2 => bad text: line 8: word
answer 2 x => bad text: line 8: version
answer 1 / set => bad text: line 9: word
answer 1 / size => bad text: line 9: count
answer 1 / size 1234567890 => bad text: line 9: number
answer 1 / size 1 2 => bad text: line 9: count
answer 1 / size 1 / sat 0 => bad text: line 10: word
answer 1 / size 2 / set 1 => bad text: line 10: count
answer 1 / size 2 / set x 4 => bad text: line 10: number
answer 1 / size 2 / set 0 x => bad text: line 10: range
answer 1 / size 2 / set 3 1 x => bad text: line 10: order
answer 1 / size 2 / set 2 2 => bad text: line 10: order
answer 1 / size 1 / set 3 4 => bad text: line 10: count
answer 1 / size 999999999 / set 1 2 3 => bad text: line 10: count
answer 1 / size 999999999 / set 1 2 3 4 => bad text: line 10: range";

/// Behind the set of an answer to them, what is refused at its certificate.
const REFUSED_CERTIFICATES: &str = "kernel 129 x => limit: kernel 129
kernel 128 => bad text: line 12: missing
kernel 1 / line 5 0 => bad text: line 12: word
kernel 1 / vector 1 0 0 2 x => bad text: line 12: range
kernel 1 / vector 1 => bad text: line 12: count
kernel 1 / vector 1 0 0 0 1 => bad text: line 12: count
kernel 0 / parts 2049 => limit: parts 2049
kernel 0 / parts 2048 => bad text: line 13: missing
kernel 0 / parts 1 / part => bad text: line 13: count
kernel 0 / parts 1 / part 4 x => bad text: line 13: range
kernel 0 / parts 1 / part 1 3 x => bad text: line 13: number
kernel 0 / parts 1 / part 1 3 3 4 => bad text: line 13: order
kernel 0 / parts 0 / end 1 => bad text: line 13: count
kernel 0 / parts 0 / end / end => bad text: line 14: extra
kernel 0 / parts 0 / end / more\x7f => bad text: line 14: byte";

/// Behind three lines, what is refused at a choice.
const REFUSED_CHOICES: &str = "answer 1 / size 1 / set 1 / end => bad text: line 8: word
choice 0 => bad text: line 8: version
choice 1 / size 3 / set 1 2 4 x => bad text: line 10: range
choice 1 / size 1 / set 1 => bad text: line 11: missing
choice 1 / size 1 / set 1 / kernel 0 => bad text: line 11: word
choice 1 / size 1 / set 1 / end /  / 1 => bad text: line 13: extra";

/// Behind a path of 16 vertices, answers to it.
const ANSWERS_TO_THE_PATH: &str =
    "answer 1 / size 8 / set 1 3 5 7 9 11 13 15 / kernel 1 / vector 0 0 0 0 0 0 0 0 0 0 0 0 0 0 0 1 / parts 1 / part 1 2 3 4 5 6 7 8 9 10 11 12 13 14 15 / end => done => yes
answer 1 / size 7 / set 1 3 5 7 9 11 13 / kernel 0 / parts 1 / part 1 2 3 4 5 6 7 8 9 10 11 12 13 14 15 / end => no => no bound 7 8
answer 1 / size 8 / set 1 3 5 7 9 11 13 15 / kernel 0 / parts 1 / part 1 2 3 4 5 6 7 8 9 10 11 12 13 14 16 / end => bad text: line 25: range
answer 1 / size 8 / set 1 3 5 7 9 11 13 15 / kernel 0 / parts 2049 => limit: parts 2049";

/// Behind the path, choices of its lines.
const CHOICES_OF_THE_PATH: &str =
    "choice 1 / size 7 / set 1 3 5 7 9 11 13 / end => done => choice 1 / size 8 / set 1 3 5 7 9 11 13 15 / end
choice 1 / size 8 / set 1 3 5 7 9 11 13 15 / end => done => none
choice 1 / size 8 / set 1 3 5 7 9 10 12 14 / end => no => no dependent / relation 0 0 0 0 0 0 0 0 0 1 1 0 0 0 0 0
choice 1 / size 7 / set 1 3 5 7 9 11 16 / end => bad text: line 22: range";

// The rows of the path are replies, a fault and a limit deep inside an input of some size: want of memory is no
// excuse there.
#[test]
fn each_row_ends_as_it_says(rt: HostRuntime) -> Result<(), Fail> {
    let alloc = rt.alloc();
    assert_tables(&rt, alloc, "check", &VERDICTS)?;
    assert_rows(&rt, alloc, "improve", &[], IMPROVEMENTS)?;
    assert_tables(&rt, alloc, "check", &REFUSED_PROBLEMS)?;
    let star = lines(alloc, STAR, "")?;
    assert_rows(&rt, alloc, "check", &star, REFUSED_SETS)?;
    assert_rows(&rt, alloc, "improve", &star, REFUSED_CHOICES)?;
    let set = lines(alloc, STAR, "answer 1 / size 0 / set")?;
    assert_rows(&rt, alloc, "check", &set, REFUSED_CERTIFICATES)?;
    let whole = path(alloc, "15")?;
    assert_rows(&rt, alloc, "check", &whole, ANSWERS_TO_THE_PATH)?;
    assert_rows(&rt, alloc, "improve", &whole, CHOICES_OF_THE_PATH)?;
    let long = path(alloc, "2049")?;
    assert_rows(&rt, alloc, "improve", &long, " => limit: lines 2049")?;
    Ok(())
}
