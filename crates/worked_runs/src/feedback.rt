//! What `feedback` replies.

use crate::inputs::complete;
use crate::rows::{assert_rows, lines, ran};
use parity_program::Status;
use std::alloc::{AllocError, Global};
use std::process::Abort;
use std::test::Fail;

/// Graphs in which no feedback set is looked for, and the one without vertices.
const ROWS: &str = "graph 1 => done => feedback 1 / size 0 / vertices / end
graph 1 / vertex a => not cubic: vertex 1
graph 1 / edge a b / vertex c => not connected: vertex 3
graph 1 / edge a b / edge b c / edge c a / edge c d / edge d e / edge e f / edge f d => not cubic: vertex 1
graph 1 / edge a b / edge a b / edge a b => not cubic: vertex 1
graph 1 / edge a b / edge a c / edge a d / edge b c / edge b d / edge c e / edge d e => not cubic: vertex 5
graph 1 / edge a b / edge a c / edge a d / edge b c / edge b d / edge c e / edge d e / edge e e => not cubic: vertex 5
graph 1 / edge a b / edge a c / edge a d / edge b c / edge b d / edge c d / edge a a => not cubic: vertex 1
graph 1 / edge a b / edge a c / edge a d / edge b c / edge b d / edge c d / edge d a => not cubic: vertex 1
graph 1 / edge a => bad text: line 2: count";

/// Cubic simple graphs, and how many vertices a least set has.
const SIZES: &str =
    "graph 1 / edge a d / edge a e / edge a f / edge b d / edge b e / edge b f / edge c d / edge c e / edge c f => 2
graph 1 / edge a b / edge b c / edge c a / edge d e / edge e f / edge f d / edge a d / edge b e / edge c f => 2
graph 1 / edge a b / edge b c / edge c d / edge d e / edge e a / edge f h / edge h j / edge j g / edge g i / edge i f / edge a f / edge b g / edge c h / edge d i / edge e j => 3";

/// The reply begins with a set of this size.
fn assert_size(rt: &impl Abort, alloc: Global, bytes: &[u8], size: &str) -> Result<(), AllocError> {
    let (status, written) = ran(alloc, "feedback", bytes)?;
    let begins = format!(in alloc; "feedback 1\nsize {}\nvertices ", size)?;
    assert_eq!(rt; status, Status::Done);
    assert!(rt; written.starts_with(begins.as_bytes()));
    assert!(rt; written.ends_with(b"\nend\n"));
    Ok(())
}

#[test]
fn feedback_sets_are_found(rt: HostRuntime) -> Result<(), Fail> {
    let alloc = rt.alloc();
    assert_rows(&rt, alloc, "feedback", &[], ROWS)?;
    assert_size(&rt, alloc, &complete(alloc, b"abcd")?, "2")?;
    for row in SIZES.split('\n') {
        let mut parts = row.split(" => ");
        let text = parts.next().unwrap_or("");
        let size = parts.next().unwrap_or("");
        assert_size(&rt, alloc, &lines(alloc, text, "")?, size)?;
    }
    for command in ["convert feedback", "feedback 1"] {
        assert_rows(&rt, alloc, command, &[], "graph 1 => usage")?;
    }
    Ok(())
}

#[test]
fn vertices_that_are_not_cubic_are_told(rt: HostRuntime) {
    let status = Status::NotCubic {
        vertex: 4_294_967_295,
    };
    assert_eq!(rt; status.code(), 4);
    assert_eq!(rt;
        status.line().as_bytes(),
        b"not cubic: vertex 4294967295\n".as_slice()
    );
}
