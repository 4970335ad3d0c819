//! Faults of the source and the sink, line ends, the longest inputs, and the lines of the statuses.

use crate::inputs::{FULL, TWO_LINES};
use crate::rows::{lines, ran, words};
use line_lexer::{Counted, TextFault};
use parity_program::{Status, run};
use std::test::Fail;
use text_io::{MemorySink, MemorySource};

#[test]
fn faults_are_told(rt: HostRuntime) -> Result<(), Fail> {
    let alloc = rt.alloc();
    let text = lines(alloc, TWO_LINES, FULL)?;
    let choice = lines(alloc, TWO_LINES, "choice 1 / size 2 / set 1 2 / end")?;
    for (word, text, front) in [
        ("check", &text, b"ye".as_slice()),
        ("improve", &choice, b"no"),
    ] {
        let words = words(alloc, word)?;
        let mut input = MemorySource::new(text, 50, &[1]);
        let mut output = MemorySink::new(alloc, 100, 100, &[])?;
        let status = run(alloc, &words, &mut input, &mut output);
        assert_eq!(rt; status, Status::ReadFault);
        assert_eq!(rt; output.bytes().len(), 0);

        let mut input = MemorySource::new(text, 50, &[]);
        let mut output = MemorySink::new(alloc, 10, 2, &[2])?;
        let status = run(alloc, &words, &mut input, &mut output);
        assert_eq!(rt; status, Status::WriteFault);
        assert_eq!(rt; output.bytes(), front);
    }
    Ok(())
}

#[test]
fn line_ends_and_gaps_are_free(rt: HostRuntime) -> Result<(), Fail> {
    let mut text = lines(rt.alloc(), "# a comment\r", "")?;
    for b in lines(rt.alloc(), TWO_LINES, FULL)?.as_slice() {
        match *b {
            b' ' => text.push(b'\t')?,
            b'\n' => text.extend_from_slice(b"\r\n")?,
            b => text.push(b)?,
        }
    }
    let (status, written) = ran(rt.alloc(), "check", &text)?;
    assert_eq!(rt; status, Status::Done);
    assert_eq!(rt; written.as_slice(), b"yes\n".as_slice());
    Ok(())
}

#[test]
fn long_inputs_are_refused(rt: HostRuntime) -> Result<(), Fail> {
    let alloc = rt.alloc();
    let text = lines(alloc, TWO_LINES, FULL)?;
    for (more, want) in [
        (b"".as_slice(), Status::Done),
        (
            b"#",
            Status::Limit {
                what: Counted::Bytes,
                found: 4_194_305,
            },
        ),
    ] {
        let mut bytes = vec![in alloc; b'#'; 4_194_166]?;
        bytes.extend_from_slice(more)?;
        bytes.push(b'\n')?;
        bytes.extend_from_slice(&text)?;
        let (status, _written) = ran(alloc, "check", &bytes)?;
        assert_eq!(rt; status, want);
    }
    Ok(())
}

#[test]
fn status_lines_are_told(rt: HostRuntime) {
    for (status, code, line) in [
        (Status::Done, 0, "done\n"),
        (Status::No, 1, "no\n"),
        (Status::Usage, 2, "usage\n"),
        (
            Status::BadText {
                line: 7,
                kind: TextFault::Range,
            },
            3,
            "bad text: line 7: range\n",
        ),
        (
            Status::Limit {
                what: Counted::CycleRank,
                found: 4_294_967_295,
            },
            4,
            "limit: cycle rank 4294967295\n",
        ),
        (
            Status::NotConnected { vertex: 3 },
            4,
            "not connected: vertex 3\n",
        ),
        (Status::ReadFault, 5, "read fault\n"),
        (Status::WriteFault, 6, "write fault\n"),
        (Status::OutOfMemory, 7, "out of memory\n"),
    ] {
        assert_eq!(rt; status.code(), code);
        assert_eq!(rt; status.line().as_bytes(), line.as_bytes());
    }
}
