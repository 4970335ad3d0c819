//! Tables on `run`, and how a row of one is run.
//!
//! A row is a line of a table: the lines of an input, the line of the status, and the lines of the
//! reply, where there is one. ` / ` stands between lines, and ` => ` between the three.

use parity_program::{Status, run};
use std::alloc::{AllocError, Global};
use std::process::Abort;
use text_io::{MemorySink, SteadySource};

/// Puts the lines of a text last, each ended by LF.
fn put_lines(out: &mut Vec<u8>, text: &str) -> Result<(), AllocError> {
    if text.is_empty() {
        return Ok(());
    }
    for line in text.split(" / ") {
        out.extend_from_slice(line.as_bytes())?;
        out.push(b'\n')?;
    }
    Ok(())
}

/// The lines of one text and then of another.
pub fn lines(alloc: Global, text: &str, more: &str) -> Result<Vec<u8>, AllocError> {
    let mut bytes = Vec::new(alloc);
    put_lines(&mut bytes, text)?;
    put_lines(&mut bytes, more)?;
    Ok(bytes)
}

/// The words of a text.
pub fn words(alloc: Global, text: &str) -> Result<Vec<String>, AllocError> {
    let mut words = Vec::new(alloc);
    if text.is_empty() {
        return Ok(words);
    }
    for word in text.split(' ') {
        words.push(String::from_str(alloc, word)?)?;
    }
    Ok(words)
}

/// How the command of these words ends on these bytes, and what it writes.
pub fn ran(alloc: Global, command: &str, bytes: &[u8]) -> Result<(Status, Vec<u8>), AllocError> {
    let words = words(alloc, command)?;
    let mut input = SteadySource::new(bytes);
    let mut output = MemorySink::new(alloc, 40_000, 1000, &[])?;
    let status = run(alloc, &words, &mut input, &mut output);
    let mut written = Vec::new(alloc);
    written.extend_from_slice(output.bytes())?;
    Ok((status, written))
}

/// Each row ends as it says, and writes what it says.
pub fn assert_rows(
    rt: &impl Abort,
    alloc: Global,
    command: &str,
    before: &[u8],
    rows: &str,
) -> Result<(), AllocError> {
    for row in rows.split('\n') {
        let mut parts = row.split(" => ");
        let text = parts.next().unwrap_or("");
        let want = parts.next().unwrap_or("");
        let reply = parts.next().unwrap_or("");
        let mut bytes = Vec::new(alloc);
        bytes.extend_from_slice(before)?;
        put_lines(&mut bytes, text)?;
        let (status, written) = ran(alloc, command, &bytes)?;
        assert_eq!(rt;
            status.line().as_bytes(),
            lines(alloc, want, "")?.as_slice(),
            "at {row}"
        );
        assert_eq!(rt;
            written.as_slice(),
            lines(alloc, reply, "")?.as_slice(),
            "at {row}"
        );
    }
    Ok(())
}

/// The same behind each of these problems.
pub fn assert_tables(
    rt: &impl Abort,
    alloc: Global,
    command: &str,
    tables: &[(&str, &str)],
) -> Result<(), AllocError> {
    for (before, rows) in tables {
        assert_rows(rt, alloc, command, &lines(alloc, before, "")?, rows)?;
    }
    Ok(())
}
