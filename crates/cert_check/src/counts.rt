//! In how many parts each position stands.

ghost use Rattle.std.specs.Prelude.{◌≡◌, ◌≢◌, ◌+◌, ◌<◌, ◌≤◌, ℕ, All, IfOk, MatchOption, length, min, slice_index};
ghost use Rattle.parity_lines.specs.Certificates.{parts_with};
ghost use Rattle.cert_check.specs.Counts.{once_in, IsFirstWith};

use parity_lines::{LineSet, Parts};
use std::alloc::{AllocError, Global};

/// Counts one more at each position of the part, up to two.
fn count_part(counts: &mut [u8], part: &LineSet)
    requires within { All (λ m. m < length counts.old) part.now }
    requires small { (m : ℕ) → m < length counts.old → slice_index counts.old m ≤ 2 }
    ensures { (m : ℕ) → m < length counts.old → slice_index counts.new m ≡ min 2 (slice_index counts.old m + once_in part.now m) }
{
    for i in 0..part.len() {
        let line = part.at(i);
        counts[line] = (counts[line] + 1).min(2);
    }
}

/// For each of `lines` positions in how many parts it stands, where two stands for two or more.
pub fn count_parts(alloc: Global, lines: usize, parts: &Parts) -> Result<Vec<u8>, AllocError>
    requires { All (λ part. All (λ m. m < lines) part) parts.now }
    ensures long { IfOk result (λ counts. length counts.items ≡ lines) }
    ensures counts { IfOk result (λ counts. (m : ℕ) → m < lines → slice_index counts.items m ≡ min 2 (parts_with parts.now m)) }
{
    let mut counts = vec![in alloc; 0u8; lines]?;
    for i in 0..parts.len() {
        count_part(&mut counts, parts.at(i));
    }
    Ok(counts)
}

/// The least position with this count.
pub fn first_with(counts: &[u8], count: u8) -> Option<usize>
    ensures { MatchOption result ((k : ℕ) → k < length counts.now → slice_index counts.now k ≢ count) (IsFirstWith counts.now count) }
{
    for (m, c) in counts.iter().enumerate() {
        if *c == count {
            return Some(m);
        }
    }
    None
}
