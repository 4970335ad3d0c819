//! The classes of akin lines, each known by its least line, or three lines that show that there are none.

ghost use Rattle.std.specs.Prelude.{◌≡◌, ◌<◌, IfOk, MatchOption, length};
ghost use Rattle.class_theory.proofs.Labels.{ExactAt, IsSymmetric, label};
ghost use Rattle.classes.specs.ClassLabels.{AreExactFor, AreLabels, IsTriple, TellsLabels};
ghost use Rattle.classes.specs.Tables.{akin_at};

use crate::table::Table;
use std::alloc::AllocError;

/// The first and the last line are akin to the one in the middle, and not to each other.
#[derive(Clone, Copy, Drop)]
pub struct Triple {
    pub first: usize,
    pub middle: usize,
    pub last: usize,
}

/// What the table tells.
#[derive(Drop)]
pub enum Labelling {
    /// For each line the least line of its class. A line that isn't live is a class alone.
    Exact(Vec<usize>),
    /// Being akin doesn't make classes.
    Violated(Triple),
}

/// The least line that is akin to this one, or the line itself.
fn least_akin(table: &Table, line: usize) -> usize
    requires { line < length table.now.live }
    ensures { result ≡ label (akin_at table.now) line }
{
    for i in 0..line {
        if table.are_akin(line, i) {
            return i;
        }
    }
    line
}

/// The least line that is akin to each.
fn least_lines(table: &Table) -> Result<Vec<usize>, AllocError>
    ensures { IfOk result (λ labels. AreLabels (length table.now.live) (akin_at table.now) labels.items) }
{
    let mut labels = Vec::new(table.alloc());
    for line in 0..table.len() {
        labels.push(least_akin(table, line))?;
    }
    Ok(labels)
}

/// Three lines for two lines with one label that aren't akin, or that are and have two labels.
fn violation(table: &Table, labels: &[usize], i: usize, j: usize) -> Option<Triple>
    requires i { i < length table.now.live }
    requires j { j < length table.now.live }
    requires labels { AreLabels (length table.now.live) (akin_at table.now) labels.now }
    requires symmetric { IsSymmetric (length table.now.live) (akin_at table.now) }
    ensures { MatchOption result (ExactAt (akin_at table.now) i j) (IsTriple (length table.now.live) (akin_at table.now)) }
{
    let (own, other) = (labels[i], labels[j]);
    if table.are_akin(i, j) {
        if own < other {
            Some(Triple {
                first: own,
                middle: i,
                last: j,
            })
        } else if other < own {
            Some(Triple {
                first: other,
                middle: j,
                last: i,
            })
        } else {
            None
        }
    } else if own == other && i != j {
        Some(Triple {
            first: i,
            middle: own,
            last: j,
        })
    } else {
        None
    }
}

/// The first violation at a line.
fn violation_at(table: &Table, labels: &[usize], i: usize) -> Option<Triple>
    requires i { i < length table.now.live }
    requires labels { AreLabels (length table.now.live) (akin_at table.now) labels.now }
    requires symmetric { IsSymmetric (length table.now.live) (akin_at table.now) }
    ensures { MatchOption result (AreExactFor (length table.now.live) (akin_at table.now) i) (IsTriple (length table.now.live) (akin_at table.now)) }
{
    for j in 0..table.len() {
        if let Some(triple) = violation(table, labels, i, j) {
            return Some(triple);
        }
    }
    None
}

/// The classes, where being akin makes classes.
pub fn labels_of(table: &Table) -> Result<Labelling, AllocError>
    requires { IsSymmetric (length table.now.live) (akin_at table.now) }
    ensures { IfOk result (TellsLabels (length table.now.live) (akin_at table.now)) }
{
    let labels = least_lines(table)?;
    for i in 0..table.len() {
        if let Some(triple) = violation_at(table, &labels, i) {
            return Ok(Labelling::Violated(triple));
        }
    }
    Ok(Labelling::Exact(labels))
}
