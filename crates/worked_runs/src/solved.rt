//! What `solve` and the commands over graphs reply.

use crate::inputs::{HUB, STAR, THREE_CLASSES, complete, star};
use crate::rows::{assert_rows, lines, ran};
use line_lexer::Counted;
use parity_program::Status;
use std::alloc::{AllocError, Global};
use std::process::Abort;
use std::test::Fail;

/// Problems with one answer only.
const SOLVED: &str =
    "parity 1 / field 2 / dimension 0 / lines 0 => done => answer 1 / size 0 / set / kernel 0 / parts 0 / end
# none\r / \r / \tparity   1\r / field 2\r / dimension 0 # zero / lines 0 => done => answer 1 / size 0 / set / kernel 0 / parts 0 / end
parity 1 / field 256 / dimension 2 / lines 1 / line 83 1 | 1 202 => done => answer 1 / size 0 / set / kernel 0 / parts 1 / part 1 / end";

/// Graphs with one largest matching only.
const MATCHINGS: &str = "graph 1 => done => matching 1 / size 0 / end
graph 1 / edge a a => done => matching 1 / size 0 / end
graph 1 / edge a b / edge b c / edge c a / edge c d / edge d e / edge e f / edge f d => done => matching 1 / size 3 / edge 1 a b / edge 4 c d / edge 6 e f / end";

/// Graphs with one largest cactus only.
const CACTI: &str = "graph 1 => done => cactus 1 / size 0 / end
graph 1 / edge a b / edge b c / edge c a / edge c d / edge d e / edge e c => done => cactus 1 / size 2 / triangle a b c / triangle c d e / end";

/// Graphs with one largest family of paths only.
const FAMILIES: &str = "graph 1 => done => paths 1 / count 0 / end
graph 1 / edge a x / edge x b / class a / class b => done => paths 1 / count 1 / path a x b / end
graph 1 / edge a x / edge x b / class a b => done => paths 1 / count 0 / end
graph 1 / class b / edge a b / edge a a / class a => done => paths 1 / count 1 / path b a / end
graph 1 / edge d c / edge b a / class a c / class b d => done => paths 1 / count 2 / path d c / path b a / end";

/// Graphs of which each rotation of maximum genus is written like this.
const ROTATIONS: &str = "graph 1 => done => rotation 1 / genus 0 / faces 0 / end
graph 1 / vertex a => done => rotation 1 / genus 0 / faces 1 / at a / end
graph 1 / edge a a => done => rotation 1 / genus 0 / faces 2 / at a 1+ 1- / end
graph 1 / edge b a => done => rotation 1 / genus 0 / faces 1 / at b 1+ / at a 1- / end
graph 1 / edge a b / edge a b => done => rotation 1 / genus 0 / faces 2 / at a 1+ 2+ / at b 1- 2- / end";

/// Graphs with more than one rotation of maximum genus, and how each is begun.
const BEGUN_ROTATIONS: &str = "graph 1 / edge a a / edge a a => rotation 1 / genus 1 / faces 1
graph 1 / edge a a / edge a b / edge b b => rotation 1 / genus 0 / faces 3
graph 1 / edge a b / edge a b / edge a b => rotation 1 / genus 1 / faces 1";

#[test]
fn only_replies_come(rt: HostRuntime) -> Result<(), Fail> {
    let alloc = rt.alloc();
    assert_rows(&rt, alloc, "solve", &[], SOLVED)?;
    assert_rows(&rt, alloc, "matching", &[], MATCHINGS)?;
    assert_rows(&rt, alloc, "cactus", &[], CACTI)?;
    assert_rows(&rt, alloc, "spaths", &[], FAMILIES)?;
    assert_rows(&rt, alloc, "genus", &[], ROTATIONS)?;
    Ok(())
}

/// Stops where the reply to the command isn't written whole, or doesn't begin so. Answers the reply.
pub fn assert_begins(
    rt: &impl Abort,
    alloc: Global,
    command: &str,
    bytes: &[u8],
    begins: &str,
) -> Result<Vec<u8>, AllocError> {
    let (status, written) = ran(alloc, command, bytes)?;
    assert_eq!(rt; status, Status::Done, "at {begins}");
    assert!(rt; written.starts_with(&lines(alloc, begins, "")?));
    Ok(written)
}

/// Problems with more than one answer, and how each begins.
const BEGINNINGS: &str =
    "parity 1 / field 2 / dimension 3 / lines 3 / line 1 0 0 | 0 1 0 / line 0 1 0 | 0 0 1 / line 1 0 0 | 0 0 1 => answer 1 / size 1
parity 1 / field 2 / dimension 2 / lines 3 / line 1 1 | 1 1 / line 0 0 | 0 0 / line 1 0 | 0 1 => answer 1 / size 1 / set 3
parity 1 / field 251 / dimension 2 / lines 1 / line 250 0 | 0 250 => answer 1 / size 1 / set 1
parity 1 / field 2 / dimension 6 / lines 5 / line 1 0 0 0 0 0 | 0 1 0 0 0 0 / line 0 1 0 0 0 0 | 0 0 1 0 0 0 / line 0 0 1 0 0 0 | 0 0 0 1 0 0 / line 0 0 0 1 0 0 | 0 0 0 0 1 0 / line 0 0 0 0 1 0 | 0 0 0 0 0 1 => answer 1 / size 3 / set 1 3 5";

/// The answer begins so, and `check` says yes to it behind its problem.
pub fn assert_solved(
    rt: &impl Abort,
    alloc: Global,
    text: &str,
    begins: &str,
) -> Result<(), AllocError> {
    let mut bytes = lines(alloc, text, "")?;
    let answer = assert_begins(rt, alloc, "solve", &bytes, begins)?;
    bytes.extend_from_slice(&answer)?;
    assert_begins(rt, alloc, "check", &bytes, "yes")?;
    Ok(())
}

#[test]
fn answers_are_good(rt: HostRuntime) -> Result<(), Fail> {
    let alloc = rt.alloc();
    assert_solved(&rt, alloc, STAR, "answer 1 / size 1")?;
    assert_solved(&rt, alloc, HUB, "answer 1 / size 4")?;
    for row in BEGINNINGS.split('\n') {
        let mut parts = row.split(" => ");
        let text = parts.next().unwrap_or("");
        let begins = parts.next().unwrap_or("");
        assert_solved(&rt, alloc, text, begins)?;
    }
    Ok(())
}

/// Roads on a torus of five times six places, with comments, and line ends of two bytes.
fn torus(alloc: Global) -> Result<Vec<u8>, AllocError> {
    let mut bytes = lines(alloc, "# roads on a torus\r / graph 1\r / \r", "")?;
    for r in 0..5 {
        for c in 0..6 {
            let (q, d) = ((r + 1) % 5, (c + 1) % 6);
            let along = format!(in alloc;
                "edge r{}c{} r{}c{} # along\r\n",
                r + 1,
                c + 1,
                r + 1,
                d + 1
            )?;
            let across = format!(in alloc;
                "edge r{}c{} r{}c{} # across\r\n",
                r + 1,
                c + 1,
                q + 1,
                c + 1
            )?;
            bytes.extend_from_slice(along.as_bytes())?;
            bytes.extend_from_slice(across.as_bytes())?;
        }
    }
    Ok(bytes)
}

#[test]
fn graphs_have_largest_objects(rt: HostRuntime) -> Result<(), Fail> {
    let alloc = rt.alloc();
    assert_begins(
        &rt,
        alloc,
        "matching",
        &torus(alloc)?,
        "matching 1 / size 15",
    )?;
    let graph = lines(
        alloc,
        "graph 1 / edge a b / edge b c / edge c a / edge c d / edge a a / edge a b",
        "",
    )?;
    assert_begins(&rt, alloc, "matching", &graph, "matching 1 / size 2")?;
    let graph = lines(
        alloc,
        "graph 1 / edge a b / edge a c / edge a d / edge b c / edge b d / edge c d",
        "",
    )?;
    assert_begins(&rt, alloc, "cactus", &graph, "cactus 1 / size 1")?;
    let graph = lines(alloc, THREE_CLASSES, "")?;
    assert_begins(&rt, alloc, "spaths", &graph, "paths 1 / count 1")?;
    Ok(())
}

#[test]
fn rotations_have_maximum_genus(rt: HostRuntime) -> Result<(), Fail> {
    let alloc = rt.alloc();
    for row in BEGUN_ROTATIONS.split('\n') {
        let mut parts = row.split(" => ");
        let graph = lines(alloc, parts.next().unwrap_or(""), "")?;
        assert_begins(&rt, alloc, "genus", &graph, parts.next().unwrap_or(""))?;
    }
    let four = complete(alloc, b"abcd")?;
    assert_begins(&rt, alloc, "genus", &four, "rotation 1 / genus 1 / faces 2")?;
    let five = complete(alloc, b"abcde")?;
    assert_begins(&rt, alloc, "genus", &five, "rotation 1 / genus 3 / faces 1")?;
    let tree = star(alloc, b"abcdefgh")?;
    assert_begins(&rt, alloc, "genus", &tree, "rotation 1 / genus 0 / faces 1")?;
    Ok(())
}

#[test]
fn conversions_are_solved(rt: HostRuntime) -> Result<(), Fail> {
    let alloc = rt.alloc();
    let graph = lines(
        alloc,
        "graph 1 / edge a b / edge b c / edge c a / edge c d / edge d e / edge e f / edge f d",
        "",
    )?;
    let problem = assert_begins(&rt, alloc, "convert matching", &graph, "# offset 0")?;
    assert_begins(
        &rt,
        alloc,
        "solve",
        &problem,
        "answer 1 / size 3 / set 1 4 6",
    )?;
    let graph = lines(alloc, THREE_CLASSES, "")?;
    let problem = assert_begins(&rt, alloc, "convert spaths", &graph, "# offset 2")?;
    assert_begins(&rt, alloc, "solve", &problem, "answer 1 / size 3")?;
    Ok(())
}

/// The least problem, behind a comment that makes so many bytes of it.
fn least_problem(alloc: Global, comment: usize) -> Result<Vec<u8>, AllocError> {
    let mut bytes = vec![in alloc; b'#'; comment]?;
    bytes.extend_from_slice(&lines(alloc, " / parity 1 / field 2 / dimension 0 / lines 0", "")?)?;
    Ok(bytes)
}

#[test]
fn problems_of_many_bytes_are_solved(rt: HostRuntime) -> Result<(), Fail> {
    let alloc = rt.alloc();
    let text = least_problem(alloc, 4_194_304 - 38)?;
    assert_begins(
        &rt,
        alloc,
        "solve",
        &text,
        "answer 1 / size 0 / set / kernel 0 / parts 0 / end",
    )?;
    let text = least_problem(alloc, 4_194_305 - 38)?;
    let (status, written) = ran(alloc, "solve", &text)?;
    let limit = Status::Limit {
        what: Counted::Bytes,
        found: 4_194_305,
    };
    assert_eq!(rt; status, limit);
    assert_eq!(rt; written.len(), 0);
    Ok(())
}
