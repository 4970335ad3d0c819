use field_core::{Field, Row};

/// A vector that was taken, with the row that it gave: combined by the coefficients from the vectors taken
/// up to it, minus one at its pivot, and zero before its pivot and at each earlier one.
#[derive(Drop)]
pub struct Step<F: Field> {
    pub vector: Row<F>,
    pub row: Row<F>,
    pub pivot: usize,
    pub coefficients: Row<F>,
}
