//! What several tests share.

use std::alloc::{AllocError, Global};
use std::process::Abort;

/// Sees that what a case says holds. (A formatted assertion is proved once, here.)
pub(crate) fn see(rt: &impl Abort, holds: bool, case: &str) {
    assert!(rt; holds, "{case}");
}

/// The program's name and the words behind it, which a space parts.
pub(crate) fn words_of(alloc: Global, line: &str) -> Result<Vec<String>, AllocError> {
    let mut words = Vec::new(alloc);
    words.push(String::from_str(alloc, "protoscip")?)?;
    for word in line.split(' ') {
        words.push(String::from_str(alloc, word)?)?;
    }
    Ok(words)
}
