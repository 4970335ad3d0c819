//! The problem of a number.

ghost use Rattle.std.specs.Prelude.{◌≡◌, ◌+◌, ◌*◌, ◌<◌, ◌∷◌, ◌++◌, [], IfOk, OnOk, map};
ghost use Rattle.generator.specs.Coordinates.{coordinate, HasBits};
ghost use Rattle.generator.specs.GeneratedProblems.{bit, IsBlockVector, IsGeneratedProblem};
ghost use Rattle.generator.specs.TakenLines.{TakesLine};

use crate::Generator;
use field_core::Field;
use parity_lines::Problem;
use small_fields::F2;
use std::alloc::{AllocError, Global};

/// How many lines there are.
const LINES: usize = 150;
/// How long the vectors are.
const DIMENSION: usize = 60;

/// The bit at a position, the lowest being at 0.
fn bit_at<F: Field>(number: u32, position: usize) -> F
    requires position { position < 32 }
    requires bits { HasBits F.scalars }
    ensures { F.number result ≡ bit number position }
{
    if (number >> position) % 2 == 1 {
        F::one()
    } else {
        F::zero()
    }
}

/// A coordinate of a vector of a block: the lowest four bits are those of the hub, the next seven those of the
/// block.
fn coordinate_at<F: Field>(block: usize, number: u32, place: usize) -> F
    requires block { block < 8 }
    requires bits { HasBits F.scalars }
    ensures { F.number result ≡ coordinate block number place }
{
    let offset = 7 * block;
    if place < 4 {
        bit_at(number, place)
    } else if place >= offset + 4 && place < offset + 11 {
        bit_at(number, place - offset)
    } else {
        F::zero()
    }
}

/// A vector of a block by the bits of a number.
fn block_vector<F: Field>(alloc: Global, block: usize, number: u32) -> Result<Vec<F>, AllocError>
    requires block { block < 8 }
    requires bits { HasBits F.scalars }
    ensures { IfOk result (λ v. IsBlockVector block number (map F.number v.items)) }
{
    let mut vector = Vec::new(alloc);
    for place in 0..DIMENSION {
        vector.push(coordinate_at(block, number, place))?;
    }
    Ok(vector)
}

/// Puts the next line last, of the block.
fn push_line<F: Field>(
    alloc: Global,
    problem: &mut Problem<F>,
    generator: &mut Generator,
    block: usize,
) -> Result<(), AllocError>
    requires block { block < 8 }
    requires bits { HasBits F.scalars }
    requires dimension { problem.old.dimension ≡ 60 }
    ensures { OnOk result (TakesLine block generator.old generator.new problem.old problem.new) }
{
    let first = block_vector(alloc, block, generator.next())?;
    let second = block_vector(alloc, block, generator.next())?;
    problem.push(&first, &second)
}

/// The problem of a number: 60 coordinates and 150 lines over two elements.
pub fn problem(alloc: Global, n: u32) -> Result<Problem<F2>, AllocError>
    ensures { IfOk result (IsGeneratedProblem n) }
{
    let mut generator = Generator::new(n);
    let mut problem = Problem::new(alloc, DIMENSION);
    for line in 0..LINES {
        push_line(alloc, &mut problem, &mut generator, line % 8)?;
    }
    Ok(problem)
}
