//! The kernel of a guess: the vectors of a subspace that single parts span.

ghost use Rattle.std.specs.Prelude.{◌≡◌, ◌≤◌, ◌<◌, All, IfOk, length};
ghost use Rattle.search.specs.Below.{ArePartsBelow};
ghost use Rattle.search.specs.Gathering.{Fits};

use echelon::{Echelon, Inserted};
use field_core::{Field, Row, Rows, is_zero};
use parity_lines::{LineSet, Parts, Problem};
use std::alloc::{AllocError, Global};

/// Vectors of the subspace, with what is known of a part: a basis of the residues of its vectors, and the vectors
/// whose residues these are.
#[derive(Drop)]
struct Gathering<F: Field> {
    residues: Echelon<F>,
    taken: Rows<F>,
    found: Echelon<F>,
    kernel: Rows<F>,
}

/// What is left of `v` when the combination of the rows is taken away.
fn less_combination<F: Field>(
    alloc: Global,
    v: &[F],
    coefficients: &[F],
    rows: &Rows<F>,
) -> Result<Row<F>, AllocError>
    requires width { length v.now ≡ rows.now.width }
    requires enough { length rows.now.rows ≤ length coefficients.now }
    ensures { IfOk result (λ left. length left ≡ length v.now) }
{
    let mut left = Row::copy_of(alloc, v)?;
    for i in 0..rows.len() {
        left.add_multiple(coefficients[i].neg(), rows.row(i));
    }
    Ok(left)
}

/// Takes a vector of the part: as it is where its residue is new, else the vector of the subspace that it leaves.
fn gather<F: Field>(
    alloc: Global,
    gathering: &mut Gathering<F>,
    v: &[F],
    residue: &[F],
) -> Result<(), AllocError>
    requires fits { Fits gathering.old (length v.now) }
    requires residue { length residue.now ≡ length v.now }
    ensures { IfOk result (λ _. Fits gathering.new (length v.now)) }
{
    match gathering.residues.insert(residue)? {
        Inserted::New => gathering.taken.push(v),
        Inserted::Old(coefficients) => {
            let left = less_combination(alloc, v, coefficients.as_slice(), &gathering.taken)?;
            if let Inserted::New = gathering.found.insert(left.as_slice())? {
                gathering.kernel.push(left.as_slice())?;
            }
            Ok(())
        }
    }
}

/// Takes the vectors of a line, unless both residues are zero: such lines cost less in a part of their own than what
/// they span.
fn gather_line<F: Field>(
    alloc: Global,
    gathering: &mut Gathering<F>,
    problem: &Problem<F>,
    residues: &Problem<F>,
    line: usize,
) -> Result<(), AllocError>
    requires fits { Fits gathering.old problem.now.dimension }
    requires dimension { residues.now.dimension ≡ problem.now.dimension }
    requires lines { length residues.now.lines ≡ length problem.now.lines }
    requires line { line < length problem.now.lines }
    ensures { IfOk result (λ _. Fits gathering.new problem.now.dimension) }
{
    let (first, second) = (residues.first(line), residues.second(line));
    if is_zero(first) && is_zero(second) {
        return Ok(());
    }
    gather(alloc, gathering, problem.first(line), first)?;
    gather(alloc, gathering, problem.second(line), second)
}

/// Takes the vectors of a part.
fn gather_part<F: Field>(
    alloc: Global,
    gathering: &mut Gathering<F>,
    problem: &Problem<F>,
    residues: &Problem<F>,
    part: &LineSet,
) -> Result<(), AllocError>
    requires fits { Fits gathering.old problem.now.dimension }
    requires dimension { residues.now.dimension ≡ problem.now.dimension }
    requires lines { length residues.now.lines ≡ length problem.now.lines }
    requires part { All (λ m. m < length problem.now.lines) part.now }
    ensures { IfOk result (λ _. Fits gathering.new problem.now.dimension) }
{
    gathering.residues.truncate(0);
    gathering.taken = Rows::new(alloc, problem.dimension());
    for i in 0..part.len() {
        gather_line(alloc, gathering, problem, residues, part.at(i))?;
    }
    Ok(())
}

/// Vectors whose residues are zero: a basis of the sum of what the parts span of them, lines apart whose residues are all
/// zero.
pub fn kernel_within<F: Field>(
    alloc: Global,
    problem: &Problem<F>,
    residues: &Problem<F>,
    parts: &Parts,
) -> Result<Rows<F>, AllocError>
    requires dimension { residues.now.dimension ≡ problem.now.dimension }
    requires lines { length residues.now.lines ≡ length problem.now.lines }
    requires parts { ArePartsBelow (length problem.now.lines) parts.now }
    ensures { IfOk result (λ kernel. kernel.width ≡ problem.now.dimension) }
{
    let dimension = problem.dimension();
    let mut gathering = Gathering {
        residues: Echelon::new(alloc, dimension)?,
        taken: Rows::new(alloc, dimension),
        found: Echelon::new(alloc, dimension)?,
        kernel: Rows::new(alloc, dimension),
    };
    for i in 0..parts.len() {
        gather_part(alloc, &mut gathering, problem, residues, parts.at(i))?;
    }
    Ok(gathering.kernel)
}
