//! Verdicts on answers.

use cert_check::{Verdict, verdict};
use field_core::Field;
use parity_lines::Problem;
use small_fields::{F2, F256};
use std::alloc::{AllocError, Global};
use std::process::Abort;
use std::test::Fail;
use worked_texts::{answer_of, lines_of, problem_of};

/// The verdict on the answer of a text.
fn judged<F: Field>(
    rt: &impl Abort,
    alloc: Global,
    problem: &Problem<F>,
    text: &str,
) -> Result<Verdict, AllocError> {
    let answer = answer_of(alloc, problem, text).expect(rt, "an answer");
    verdict(alloc, problem, &answer)
}

/// Three lines through the first unit vector.
const STAR: &str =
    "dimension 4\nlines 3\nline 1 0 0 0 | 0 1 0 0\nline 1 0 0 0 | 0 0 1 0\nline 1 0 0 0 | 0 0 0 1\n";

/// Asserts what the verdict on an answer is.
pub fn assert_verdict<F: Field>(
    rt: &impl Abort,
    alloc: Global,
    problem: &Problem<F>,
    text: &str,
    want: Verdict,
) -> Result<(), AllocError> {
    assert_eq!(rt; judged(rt, alloc, problem, text)?, want);
    Ok(())
}

const GOOD: &str =
    "answer 1\nsize 1\nset 1\nkernel 1\nvector 1 0 0 0\nparts 3\npart 1\npart 2\npart 3\nend\n";

const TWO_LINES: &str =
    "answer 1\nsize 2\nset 1 2\nkernel 1\nvector 1 0 0 0\nparts 3\npart 1\npart 2\npart 3\nend\n";

const KERNEL_TWICE: &str =
    "answer 1\nsize 1\nset 1\nkernel 2\nvector 1 0 0 0\nvector 1 0 0 0\nparts 0\nend\n";

const KERNEL_ZERO: &str =
    "answer 1\nsize 1\nset 1\nkernel 1\nvector 0 0 0 0\nparts 3\npart 1\npart 2\npart 3\nend\n";

const NO_SECOND: &str =
    "answer 1\nsize 1\nset 1\nkernel 1\nvector 1 0 0 0\nparts 2\npart 1\npart 3\nend\n";

const FIRST_TWICE: &str =
    "answer 1\nsize 1\nset 1\nkernel 1\nvector 1 0 0 0\nparts 2\npart 1\npart 1\nend\n";

const SECOND_TWICE: &str =
    "answer 1\nsize 1\nset 1\nkernel 1\nvector 1 0 0 0\nparts 2\npart 1 2 3\npart 2 3\nend\n";

const ONE_PART: &str =
    "answer 1\nsize 1\nset 1\nkernel 1\nvector 1 0 0 0\nparts 1\npart 1 2 3\nend\n";

const NO_KERNEL: &str = "answer 1\nsize 0\nset\nkernel 0\nparts 1\npart 1 2 3\nend\n";

fn assert_verdicts<F: Field>(rt: &impl Abort, alloc: Global) -> Result<(), AllocError> {
    let star = lines_of::<F>(alloc, STAR).expect(rt, "lines");
    assert_verdict(rt, alloc, &star, GOOD, Verdict::Yes)?;
    assert_verdict(rt, alloc, &star, TWO_LINES, Verdict::Dependent)?;
    assert_verdict(rt, alloc, &star, KERNEL_TWICE, Verdict::KernelDependent)?;
    assert_verdict(rt, alloc, &star, KERNEL_ZERO, Verdict::KernelDependent)?;
    assert_verdict(rt, alloc, &star, NO_SECOND, Verdict::PartsMissing(1))?;
    assert_verdict(rt, alloc, &star, FIRST_TWICE, Verdict::PartsMissing(1))?;
    assert_verdict(rt, alloc, &star, SECOND_TWICE, Verdict::PartsTwice(1))?;
    let two = Verdict::BoundOff { size: 1, bound: 2 };
    assert_verdict(rt, alloc, &star, ONE_PART, two)?;
    let two = Verdict::BoundOff { size: 0, bound: 2 };
    assert_verdict(rt, alloc, &star, NO_KERNEL, two)?;
    Ok(())
}

#[test]
fn each_verdict_comes(rt: HostRuntime) -> Result<(), Fail> {
    assert_verdicts::<F2>(&rt, rt.alloc())?;
    assert_verdicts::<F256>(&rt, rt.alloc())?;
    Ok(())
}

/// Three triangles with lines (x, y), (y, z) and (x + p, z), which share the point p: the certificate needs it.
pub const HUB: &str = "parity 1\nfield 2\ndimension 10\nlines 9\n\
    line 0 1 0 0 0 0 0 0 0 0 | 0 0 1 0 0 0 0 0 0 0\n\
    line 0 0 1 0 0 0 0 0 0 0 | 0 0 0 1 0 0 0 0 0 0\n\
    line 1 1 0 0 0 0 0 0 0 0 | 0 0 0 1 0 0 0 0 0 0\n\
    line 0 0 0 0 1 0 0 0 0 0 | 0 0 0 0 0 1 0 0 0 0\n\
    line 0 0 0 0 0 1 0 0 0 0 | 0 0 0 0 0 0 1 0 0 0\n\
    line 1 0 0 0 1 0 0 0 0 0 | 0 0 0 0 0 0 1 0 0 0\n\
    line 0 0 0 0 0 0 0 1 0 0 | 0 0 0 0 0 0 0 0 1 0\n\
    line 0 0 0 0 0 0 0 0 1 0 | 0 0 0 0 0 0 0 0 0 1\n\
    line 1 0 0 0 0 0 0 1 0 0 | 0 0 0 0 0 0 0 0 0 1\n";

const HUB_KERNEL: &str =
    "answer 1\nsize 4\nset 1 3 4 7\nkernel 1\nvector 1 0 0 0 0 0 0 0 0 0\nparts 3\npart 1 2 3\npart 4 5 6\npart 7 8 9\nend\n";

const HUB_NO_KERNEL: &str =
    "answer 1\nsize 4\nset 1 3 4 7\nkernel 0\nparts 3\npart 1 2 3\npart 4 5 6\npart 7 8 9\nend\n";

const HUB_FIVE: &str =
    "answer 1\nsize 5\nset 1 3 4 6 7\nkernel 0\nparts 3\npart 1 2 3\npart 4 5 6\npart 7 8 9\nend\n";

#[test]
fn hub_of_three_triangles(rt: HostRuntime) -> Result<(), Fail> {
    let alloc = rt.alloc();
    let hub = problem_of::<F2>(alloc, HUB).expect(&rt, "a problem");
    assert_verdict(&rt, alloc, &hub, HUB_KERNEL, Verdict::Yes)?;
    let six = Verdict::BoundOff { size: 4, bound: 6 };
    assert_verdict(&rt, alloc, &hub, HUB_NO_KERNEL, six)?;
    assert_verdict(&rt, alloc, &hub, HUB_FIVE, Verdict::Dependent)?;
    Ok(())
}
