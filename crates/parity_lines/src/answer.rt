use crate::{LineSet, Parts};
use field_core::{Field, Rows};

/// A kernel, which is a list of vectors, and parts of the lines.
#[derive(Drop)]
pub struct Certificate<F: Field> {
    pub kernel: Rows<F>,
    pub parts: Parts,
}

/// A set of lines, with a certificate that it is largest where the answer is good.
#[derive(Drop)]
pub struct Answer<F: Field> {
    pub set: LineSet,
    pub certificate: Certificate<F>,
}
