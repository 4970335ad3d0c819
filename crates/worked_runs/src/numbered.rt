//! What `generate` and `sample` reply, and what `solve` and `check` make of it.

use crate::rows::{lines, ran, words};
use parity_program::{Status, run};
use std::alloc::{AllocError, Global};
use std::process::Abort;
use std::test::Fail;
use text_io::{MemorySink, MemorySource};

/// How the problem of 7 begins.
const PROBLEM_OF_SEVEN: &str =
    "parity 1 / field 2 / dimension 60 / lines 150 / line 0 0 0 0 0 1 0 0 1 0 1 0 0 0 0 0 0 0 0 0 0 0 0 0 0 0 0 0 0 0 0 0 0 0 0 0 0 0 0 0 0 0 0 0 0 0 0 0 0 0 0 0 0 0 0 0 0 0 0 0 | 0 1 0 1 1 0 1 1 1 0 0 0 0 0 0 0 0 0 0 0 0 0 0 0 0 0 0 0 0 0 0 0 0 0 0 0 0 0 0 0 0 0 0 0 0 0 0 0 0 0 0 0 0 0 0 0 0 0 0 0";

/// Words that are no command's; ` ` stands between them.
const OTHER_WORDS: [&str; 32] = [
    "",
    "check x",
    "improve extra",
    "solve matching",
    "checks",
    "matching 1",
    "matching cactus",
    "convert",
    "convert solve",
    "convert generate",
    "convert matching cactus",
    "cactus convert",
    "converted matching",
    "spaths 1",
    "convert spath",
    "convert genera",
    "genus spaths",
    "generate",
    "generate 007",
    "generate 00",
    "generate 4294967296",
    "generate -1",
    "generate +7",
    "generate x",
    "generate 7 8",
    "sample",
    "sample 007",
    "sample 4294967296",
    "sample -1",
    "sample 7 8",
    "convert sample",
    "solve x",
];

/// The reply to words that are answered without the source, which fails at once where it is read.
fn unread(rt: &impl Abort, alloc: Global, text: &str) -> Result<Vec<u8>, AllocError> {
    let words = words(alloc, text)?;
    let mut input = MemorySource::new(b"x", 1, &[1]);
    let mut output = MemorySink::new(alloc, 40_000, 1000, &[])?;
    assert_eq!(rt; run(alloc, &words, &mut input, &mut output), Status::Done);
    let mut written = Vec::new(alloc);
    written.extend_from_slice(output.bytes())?;
    Ok(written)
}

#[test]
fn sizes_are_told(rt: HostRuntime) -> Result<(), Fail> {
    let alloc = rt.alloc();
    let want = lines(alloc, "sample 7 / dimension 60 / lines 150 / size 28", "")?;
    for _ in 0..2 {
        let told = unread(&rt, alloc, "sample 7")?;
        assert_eq!(rt; told.as_slice(), want.as_slice());
    }
    Ok(())
}

#[test]
fn generated_problems_are_solved(rt: HostRuntime) -> Result<(), Fail> {
    let alloc = rt.alloc();
    let mut bytes = unread(&rt, alloc, "generate 7")?;
    let (status, answer) = ran(alloc, "solve", &bytes)?;
    assert_eq!(rt; status, Status::Done);
    assert!(rt; answer.starts_with(&lines(alloc, "answer 1 / size 28", "")?));
    bytes.extend_from_slice(&answer)?;
    let (status, verdict) = ran(alloc, "check", &bytes)?;
    assert_eq!(rt; status, Status::Done);
    assert_eq!(rt; verdict.as_slice(), b"yes\n".as_slice());
    Ok(())
}

// A source that fails at once shows that it isn't read.
#[test]
fn what_reads_nothing_leaves_the_source(rt: HostRuntime) -> Result<(), Fail> {
    let alloc = rt.alloc();
    let begins = lines(alloc, PROBLEM_OF_SEVEN, "")?;
    for (number, is_seven) in [
        ("generate 7", true),
        ("generate 0", false),
        ("generate 4294967295", false),
    ] {
        let words = words(alloc, number)?;
        let mut input = MemorySource::new(b"x", 1, &[1]);
        let mut output = MemorySink::new(alloc, 40_000, 1000, &[])?;
        assert_eq!(rt; run(alloc, &words, &mut input, &mut output), Status::Done);
        assert_eq!(rt; output.bytes().starts_with(&begins), is_seven);
        let count = output
            .bytes()
            .split(|b| *b == b'\n')
            .filter(|line| line.starts_with(b"line "))
            .count();
        assert_eq!(rt; count, 150);
    }
    for text in OTHER_WORDS {
        let words = words(alloc, text)?;
        let mut input = MemorySource::new(b"x", 1, &[1]);
        let mut output = MemorySink::new(alloc, 10, 2, &[])?;
        assert_eq!(rt;
            run(alloc, &words, &mut input, &mut output),
            Status::Usage,
            "at {text}"
        );
        assert_eq!(rt; output.bytes().len(), 0);
    }
    Ok(())
}
