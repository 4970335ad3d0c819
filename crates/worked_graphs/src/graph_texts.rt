//! Graph texts, as tables: each row has the lines of a text, and its refusal. And the lines of replies.
//!
//! ` / ` stands between lines, and ` => ` before the refusal.

use graph_core::{EdgeList, Graph, VertexList, VertexLists};
use graph_text::{read_graph, write_cactus, write_matching, write_paths};
use line_lexer::{Counted, Lexer, TextRefusal};
use std::alloc::{AllocError, Global};
use std::process::Abort;
use std::test::Fail;

/// The lines of a text, each ended by LF.
fn lines(alloc: Global, text: &str) -> Result<Vec<u8>, AllocError> {
    let mut bytes = Vec::new(alloc);
    for line in text.split(" / ") {
        bytes.extend_from_slice(line.as_bytes())?;
        bytes.push(b'\n')?;
    }
    Ok(bytes)
}

/// What is read of the bytes, if they are few enough for a lexer.
fn read(rt: &impl Abort, alloc: Global, bytes: &[u8], most: u32) -> Result<Graph, TextRefusal> {
    assert!(rt; bytes.len() <= 4194304);
    read_graph(alloc, &mut Lexer::new(bytes), most)
}

/// Each row is refused as it says, with at most three vertices.
fn assert_refused(rt: &impl Abort, alloc: Global, rows: &str) -> Result<(), AllocError> {
    for row in rows.split('\n') {
        let mut parts = row.split(" => ");
        let text = parts.next().unwrap_or("");
        let want = parts.next().unwrap_or("");
        let bytes = lines(alloc, text)?;
        match read(rt, alloc, bytes.as_slice(), 3) {
            Ok(_) => assert!(rt; want == "read", "at {row}"),
            Err(refusal) => {
                let told = format!(in alloc; "{refusal:?}")?;
                assert_eq!(rt; told.as_str(), want, "at {row}");
            }
        }
    }
    Ok(())
}

#[test]
fn the_first_fault_is_told(rt: HostRuntime) -> Result<(), Fail> {
    let rows = "# / # => Bad { line: 3, kind: Missing }
graf 1 / vertices a => Bad { line: 1, kind: Word }
graph 2 1 => Bad { line: 1, kind: Version }
graph one / \u{1} => Bad { line: 1, kind: Number }
graph 1 1 / node a => Bad { line: 1, kind: Count }
graph 1 / # / node => Bad { line: 3, kind: Word }
graph 1 / node \u{ff} => Bad { line: 2, kind: Byte }
graph 1 / vertex / edge => Bad { line: 2, kind: Count }
graph 1 / edge a / edge => Bad { line: 2, kind: Count }
graph 1 / edge a b c => Bad { line: 2, kind: Count }
graph 1 / edge a b c d e => Bad { line: 2, kind: Count }
graph 1 / class # a => Bad { line: 2, kind: Count }
graph 1 / class a b a d => Bad { line: 2, kind: Classed }
graph 1 / class a / edge b c / class b a d => Bad { line: 4, kind: Classed }
graph 1 / class a / class b c d a => Limit { what: Vertices, found: 4 }
graph 1 / vertex a b c a / vertex c d / node => Limit { what: Vertices, found: 4 }
graph 1 / edge a b / edge c d e => Limit { what: Vertices, found: 4 }
graph 1 / vertex a b c / edge a 123456789012345678901234567890123 => Limit { what: NameBytes, found: 33 }
graph 1 / class 12345678901234567890123456789012 b 123456789012345678901234567890123 d => Limit { what: NameBytes, found: 33 }
graph 1 / vertex 12345678901234567890123456789012 => read
graph 1 => read
# a graph\r / \r / graph 1 # one\r / \tedge  a b#c\r / vertex c\r / class edge\r => Limit { what: Vertices, found: 4 }
# a graph\r / \r / graph 1 # one\r / \tedge  a b#c\r / vertex vertex\r / class b a\r => read";
    assert_refused(&rt, rt.alloc(), rows)?;
    Ok(())
}

#[test]
fn edges_are_counted_at_their_word(rt: HostRuntime) -> Result<(), Fail> {
    let alloc = rt.alloc();
    let mut text = lines(alloc, "graph 1")?;
    for _ in 0..512 {
        text.extend_from_slice(b"edge a b\n")?;
    }
    let graph = read(&rt, alloc, text.as_slice(), 2).expect(&rt, "a graph of 512 edges");
    assert!(rt; graph.edges() == 512);
    text.extend_from_slice(b"edge\n")?;
    assert_eq!(rt;
        read(&rt, alloc, text.as_slice(), 2).err(),
        Some(TextRefusal::Limit {
            what: Counted::Edges,
            found: 513
        })
    );
    Ok(())
}

#[test]
fn classes_are_numbered_by_their_lines(rt: HostRuntime) -> Result<(), Fail> {
    let alloc = rt.alloc();
    let text = lines(alloc, "graph 1 / edge a c / class d / vertex b / class c b")?;
    let graph = read(&rt, alloc, text.as_slice(), 4).expect(&rt, "a graph");
    assert!(rt; graph.vertices() == 4);
    assert!(rt; graph.edges() == 1);
    assert_eq!(rt; graph.ends(0), (0, 1));
    assert_eq!(rt; graph.name(3), b"b".as_slice());
    assert_eq!(rt; graph.class(0), None);
    assert_eq!(rt; graph.class(1), Some(1));
    assert_eq!(rt; graph.class(2), Some(0));
    assert_eq!(rt; graph.class(3), Some(1));
    Ok(())
}

#[test]
fn replies_are_spelled(rt: HostRuntime) -> Result<(), Fail> {
    let alloc = rt.alloc();
    let text = lines(alloc, "graph 1 / edge a b / vertex c / edge d c")?;
    let graph = read(&rt, alloc, text.as_slice(), 4).expect(&rt, "a graph");
    assert!(rt; graph.vertices() == 4 && graph.edges() == 2);
    let mut edges = EdgeList::new(alloc);
    edges.push(0)?;
    edges.push(1)?;
    let mut list = VertexList::new(alloc);
    list.push(0)?;
    list.push(2)?;
    list.push(3)?;
    let mut lists = VertexLists::new(alloc);
    lists.push(list)?;
    let mut out = Vec::new(alloc);
    write_matching(&mut out, &graph, &edges)?;
    write_cactus(&mut out, &graph, &lists)?;
    write_paths(&mut out, &graph, &lists)?;
    let want = lines(
        alloc,
        "matching 1 / size 2 / edge 1 a b / edge 2 d c / end / cactus 1 / size 1 / triangle a c d / end / paths 1 / count 1 / path a c d / end",
    )?;
    assert_eq!(rt; out.as_slice(), want.as_slice());
    Ok(())
}
