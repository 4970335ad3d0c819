//! The vectors of pairs at vertices, and of edges.

ghost use Rattle.std.specs.Prelude.{◌≡◌, ◌<◌, ◌++◌, ℕ, Some, IfOk, IfSome, OnOk, is_some, length, map, slice_index_or, None};
ghost use Rattle.graph_problems.specs.PathLines.{edge_pair, pair_entries, pair_vector, zero_entries};
ghost use Rattle.path_theory.specs.Classes.{class_of, is_terminal, number_of};
ghost use Rattle.path_theory.specs.Coordinates.{dimension};

use field_core::{Field, Row};
use graph_core::Graph;
use std::alloc::{AllocError, Global};

/// The vector of the pair x, y at the first end less that at the second.
pub(crate) fn edge_pair<F: Field>(
    alloc: Global,
    graph: &Graph,
    minus: F,
    ends: (usize, usize),
    x: F,
    y: F,
) -> Result<Row<F>, AllocError>
    requires { (v c : ℕ) → slice_index_or graph.now.classes v None ≡ Some c → c < F.scalars.order }
    ensures value { IfOk result (λ row. row ≡ edge_pair F.scalars (F.number minus) (length graph.now.names) (is_terminal graph.now.classes)
        (class_of graph.now.classes) ends (F.number x) (F.number y)) }
    ensures long { IfOk result (λ row. length row ≡ dimension (length graph.now.names) (is_terminal graph.now.classes)) }
{
    let first = pair_vector(alloc, graph, minus, ends.0, x, y)?;
    let second = pair_vector(alloc, graph, minus, ends.1, x, y)?;
    let mut row = Row::copy_of(alloc, &first)?;
    row.add_multiple(minus, &second);
    Ok(row)
}

/// The vector with the pair x, y at the vertex, and zero at the others.
fn pair_vector<F: Field>(
    alloc: Global,
    graph: &Graph,
    minus: F,
    vertex: usize,
    x: F,
    y: F,
) -> Result<Vec<F>, AllocError>
    requires { (v c : ℕ) → slice_index_or graph.now.classes v None ≡ Some c → c < F.scalars.order }
    ensures value { IfOk result (λ v. map F.number v.items ≡ pair_vector F.scalars (F.number minus) (length graph.now.names)
        (is_terminal graph.now.classes) (class_of graph.now.classes) vertex (F.number x) (F.number y)) }
    ensures long { IfOk result (λ v. length v.items ≡ dimension (length graph.now.names) (is_terminal graph.now.classes)) }
{
    let mut vector = Vec::new(alloc);
    for at in 0..graph.vertices() {
        if at == vertex {
            push_pair(&mut vector, graph.class(at), minus, x, y)?;
        } else {
            push_zeros(&mut vector, graph.class(at))?;
        }
    }
    Ok(vector)
}

/// Puts the entries of a vertex with the pair x, y last: both, or y less the class times x at a terminal.
fn push_pair<F: Field>(
    vector: &mut Vec<F>,
    class: Option<u32>,
    minus: F,
    x: F,
    y: F,
) -> Result<(), AllocError>
    requires { IfSome class (λ c. c < F.scalars.order) }
    ensures { OnOk result (map F.number vector.new.items ≡ map F.number vector.old.items
        ++ pair_entries F.scalars (F.number minus) (is_some class) (number_of class) (F.number x) (F.number y)) }
{
    match class {
        Some(class) => {
            let slope: F = scalar(class);
            vector.push(y.add(minus.mul(slope.mul(x))))?;
        }
        None => {
            vector.push(x)?;
            vector.push(y)?;
        }
    }
    Ok(())
}

/// The scalar with the number of a class.
fn scalar<F: Field>(class: u32) -> F
    requires { class < F.scalars.order }
    ensures { F.number result ≡ class }
{
    let _order = F::ORDER;
    F::from_number(class as u16).unwrap()
}

/// Puts zeros last in the entries of a vertex.
fn push_zeros<F: Field>(vector: &mut Vec<F>, class: Option<u32>) -> Result<(), AllocError>
    ensures { OnOk result (map F.number vector.new.items ≡ map F.number vector.old.items ++ zero_entries F.scalars (is_some class)) }
{
    if class.is_none() {
        vector.push(F::zero())?;
    }
    vector.push(F::zero())?;
    Ok(())
}
