//! Every read, write and cut of small inputs.

ghost use Rattle.std.specs.Prelude.{◌≤◌};

use crate::inputs::{FULL, TWO_LINES};
use crate::rows::{lines, ran, words};
use parity_program::{Status, run};
use std::alloc::{AllocError, Global};
use std::process::Abort;
use std::test::Fail;
use text_io::{MemorySink, MemorySource};

/// The least problem: 37 bytes.
const LEAST: &str = "parity 1 / field 2 / dimension 0 / lines 0";

/// Its answer: 41 bytes.
const ANSWER_OF_LEAST: &str = "answer 1 / size 0 / set / kernel 0 / parts 0 / end";

/// How `solve` of the bytes ends, whose source gives a byte a call and fails at one, and what it writes.
fn read_with_fault(
    alloc: Global,
    bytes: &[u8],
    call: u64,
) -> Result<(Status, Vec<u8>), AllocError> {
    let words = words(alloc, "solve")?;
    let fails = [call];
    let mut input = MemorySource::new(bytes, 1, &fails);
    let mut output = MemorySink::new(alloc, 100, 100, &[])?;
    let status = run(alloc, &words, &mut input, &mut output);
    Ok((status, Vec::from_slice(alloc, output.bytes())?))
}

#[test]
fn each_read_that_fails_is_told(rt: HostRuntime) -> Result<(), Fail> {
    let alloc = rt.alloc();
    let bytes = lines(alloc, LEAST, "")?;
    assert_eq!(rt; bytes.len(), 37);
    for call in 1..=38 {
        let (status, written) = read_with_fault(alloc, &bytes, call)?;
        assert_eq!(rt; status, Status::ReadFault, "fault at {call}");
        assert_eq!(rt; written.len(), 0, "fault at {call}");
    }
    let (status, written) = read_with_fault(alloc, &bytes, 39)?;
    assert_eq!(rt; status, Status::Done);
    assert_eq!(rt;
        written.as_slice(),
        lines(alloc, ANSWER_OF_LEAST, "")?.as_slice()
    );
    Ok(())
}

/// How `solve` of the bytes ends, whose sink has some room, takes so many bytes a call and fails at one call, and what it writes.
fn written_with_fault(
    alloc: Global,
    bytes: &[u8],
    room: usize,
    most: usize,
    fails: &[u64],
) -> Result<(Status, Vec<u8>), AllocError>
    requires { 1 ≤ most }
{
    let words = words(alloc, "solve")?;
    let mut input = MemorySource::new(bytes, 64, &[]);
    let mut output = MemorySink::new(alloc, room, most, fails)?;
    let status = run(alloc, &words, &mut input, &mut output);
    Ok((status, Vec::from_slice(alloc, output.bytes())?))
}

#[test]
fn each_write_that_fails_leaves_a_front(rt: HostRuntime) -> Result<(), Fail> {
    let alloc = rt.alloc();
    let bytes = lines(alloc, LEAST, "")?;
    let answer = lines(alloc, ANSWER_OF_LEAST, "")?;
    assert_eq!(rt; answer.len(), 41);
    for (before, call) in (1..=42).enumerate() {
        let (status, written) = written_with_fault(alloc, &bytes, 100, 1, &[call])?;
        let whole = before == 41;
        assert_eq!(rt;
            status,
            if whole {
                Status::Done
            } else {
                Status::WriteFault
            },
            "fault at {call}"
        );
        assert_eq!(rt; written.len(), before, "fault at {call}");
        assert!(rt; answer.starts_with(&written), "fault at {call}");
    }
    Ok(())
}

#[test]
fn each_room_is_filled(rt: HostRuntime) -> Result<(), Fail> {
    let alloc = rt.alloc();
    let bytes = lines(alloc, LEAST, "")?;
    let answer = lines(alloc, ANSWER_OF_LEAST, "")?;
    for room in 0..=41 {
        let (status, written) = written_with_fault(alloc, &bytes, room, 64, &[])?;
        let whole = room == 41;
        assert_eq!(rt;
            status,
            if whole {
                Status::Done
            } else {
                Status::WriteFault
            },
            "room {room}"
        );
        assert_eq!(rt; written.len(), room, "room {room}");
        assert!(rt; answer.starts_with(&written), "room {room}");
    }
    Ok(())
}

/// The fronts of the bytes, of each length from the first to the last, end with the status's line, and write the reply.
fn assert_fronts(
    rt: &impl Abort,
    alloc: Global,
    command: &str,
    bytes: &[u8],
    lengths: (usize, usize),
    want: (&str, &str),
) -> Result<(), AllocError> {
    let told = lines(alloc, want.0, "")?;
    let reply = lines(alloc, want.1, "")?;
    for length in lengths.0..=lengths.1 {
        let front = bytes.get(..length).expect(rt, "a front");
        let (status, written) = ran(alloc, command, front)?;
        assert_eq!(rt; status.line().as_bytes(), told.as_slice(), "at {length}");
        assert_eq!(rt; written.as_slice(), reply.as_slice(), "at {length}");
    }
    Ok(())
}

/// From which length to which, how the fronts of the least problem end.
const CUTS_OF_LEAST: [(usize, usize, &str); 12] = [
    (0, 0, "bad text: line 1: missing"),
    (1, 5, "bad text: line 1: word"),
    (6, 7, "bad text: line 1: count"),
    (8, 9, "bad text: line 2: missing"),
    (10, 13, "bad text: line 2: word"),
    (14, 15, "bad text: line 2: count"),
    (16, 17, "bad text: line 3: missing"),
    (18, 25, "bad text: line 3: word"),
    (26, 27, "bad text: line 3: count"),
    (28, 29, "bad text: line 4: missing"),
    (30, 33, "bad text: line 4: word"),
    (34, 35, "bad text: line 4: count"),
];

#[test]
fn fronts_of_the_least_problem(rt: HostRuntime) -> Result<(), Fail> {
    let alloc = rt.alloc();
    let bytes = lines(alloc, LEAST, "")?;
    for (from, to, want) in CUTS_OF_LEAST {
        assert_fronts(&rt, alloc, "solve", &bytes, (from, to), (want, ""))?;
    }
    assert_fronts(
        &rt,
        alloc,
        "solve",
        &bytes,
        (36, 37),
        ("done", ANSWER_OF_LEAST),
    )?;
    Ok(())
}

/// A path between two classes: 42 bytes.
const ONE_PATH: &str = "graph 1 / edge a x / edge x b / class a / class b";

const NO_PATHS: &str = "paths 1 / count 0 / end";

const PATH: &str = "paths 1 / count 1 / path a x b / end";

/// From which length to which, how the fronts of its graph end, and what `spaths` writes.
const CUTS_OF_ONE_PATH: [(usize, usize, &str, &str); 16] = [
    (0, 0, "bad text: line 1: missing", ""),
    (1, 4, "bad text: line 1: word", ""),
    (5, 6, "bad text: line 1: count", ""),
    (7, 8, "done", NO_PATHS),
    (9, 11, "bad text: line 2: word", ""),
    (12, 15, "bad text: line 2: count", ""),
    (16, 17, "done", NO_PATHS),
    (18, 20, "bad text: line 3: word", ""),
    (21, 24, "bad text: line 3: count", ""),
    (25, 26, "done", NO_PATHS),
    (27, 30, "bad text: line 4: word", ""),
    (31, 32, "bad text: line 4: count", ""),
    (33, 34, "done", NO_PATHS),
    (35, 38, "bad text: line 5: word", ""),
    (39, 40, "bad text: line 5: count", ""),
    (41, 42, "done", PATH),
];

#[test]
fn fronts_of_a_graph(rt: HostRuntime) -> Result<(), Fail> {
    let alloc = rt.alloc();
    let bytes = lines(alloc, ONE_PATH, "")?;
    assert_eq!(rt; bytes.len(), 42);
    for (from, to, want, reply) in CUTS_OF_ONE_PATH {
        assert_fronts(&rt, alloc, "spaths", &bytes, (from, to), (want, reply))?;
    }
    Ok(())
}

#[test]
fn fronts_of_an_answer(rt: HostRuntime) -> Result<(), Fail> {
    let alloc = rt.alloc();
    let bytes = lines(alloc, TWO_LINES, FULL)?;
    assert_eq!(rt; bytes.len(), 137);
    for length in 0..136 {
        let front = bytes.get(..length).expect(&rt, "a front");
        let (status, written) = ran(alloc, "check", front)?;
        assert!(rt;
            status != Status::Done && status != Status::No,
            "at {length}"
        );
        assert_eq!(rt; written.len(), 0, "at {length}");
    }
    let missing = ("bad text: line 13: missing", "");
    assert_fronts(&rt, alloc, "check", &bytes, (130, 130), missing)?;
    assert_fronts(&rt, alloc, "check", &bytes, (132, 132), missing)?;
    assert_fronts(&rt, alloc, "check", &bytes, (136, 137), ("done", "yes"))?;
    Ok(())
}
