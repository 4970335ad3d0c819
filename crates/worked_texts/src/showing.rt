//! Values as texts.

use field_core::{Field, Rows};
use parity_lines::{LineSet, Parts};
use std::alloc::{AllocError, Global};

/// The numbers of the values.
pub fn shown<F: Field>(alloc: Global, values: &[F]) -> Result<String, AllocError> {
    let mut text = String::new(alloc);
    for x in values {
        if !text.is_empty() {
            text.push_str(" ")?;
        }
        write!(text, "{}", x.number())?;
    }
    Ok(text)
}

/// The rows, one after the other.
pub fn shown_rows<F: Field>(alloc: Global, rows: &Rows<F>) -> Result<String, AllocError> {
    let mut text = String::new(alloc);
    for i in 0..rows.len() {
        if i > 0 {
            text.push_str(" / ")?;
        }
        text.push_str(shown(alloc, rows.row(i))?.as_str())?;
    }
    Ok(text)
}

/// The positions of the set, counted from 1.
pub fn shown_set(alloc: Global, set: &LineSet) -> Result<String, AllocError> {
    let mut text = String::new(alloc);
    for i in 0..set.len() {
        if i > 0 {
            text.push_str(" ")?;
        }
        write!(text, "{}", set.at(i) as u128 + 1)?;
    }
    Ok(text)
}

/// The parts, one after the other.
pub fn shown_parts(alloc: Global, parts: &Parts) -> Result<String, AllocError> {
    let mut text = String::new(alloc);
    for i in 0..parts.len() {
        if i > 0 {
            text.push_str(" / ")?;
        }
        text.push_str(shown_set(alloc, parts.at(i))?.as_str())?;
    }
    Ok(text)
}
