//! What all tests assert.

use std::process::Abort;

/// Stops where a text isn't the wanted one. An assertion costs its proof once here, and a call of this next to nothing.
pub fn assert_text(rt: &impl Abort, text: &str, want: &str) {
    assert_eq!(rt; text, want);
}
