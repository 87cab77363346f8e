//! Whether patterns exclude a name in a folder.

ghost use Rattle.std.specs.Prelude.{◌≡◌, ◌≢◌, ◌↔◌, ◌++◌, All, IfOk, IsTrue, map, string_bytes};
ghost use Rattle.globs.specs.Exclusions.{Excludes, IsExcluded, without_slash};

use crate::spelling::is_spelled;
use std::alloc::{AllocError, Global};

/// Whether a pattern has no `/`.
fn has_no_slash(pattern: &str) -> bool
    ensures { IsTrue result ↔ All (λ byte. byte ≢ 47) pattern.now }
{
    pattern.as_bytes().iter().all(|byte| *byte != b'/')
}

/// A pattern without a `/` at its start.
fn without_slash(pattern: &[u8]) -> &[u8]
    ensures { result.now ≡ without_slash pattern.now }
{
    match pattern {
        [] => pattern,
        [first, rest @ ..] => { if *first == b'/' { rest } else { pattern } }
    }
}

/// The path of what has a name in a folder.
fn path_of(alloc: Global, folder: &str, name: &str) -> Result<String, AllocError>
    ensures { IfOk result (λ path. string_bytes path ≡ folder.now ++ name.now) }
{
    let mut path = String::from_str(alloc, folder)?;
    path.push_str(name)?;
    Ok(path)
}

/// Whether a pattern excludes what has a name in a folder.
fn excludes(alloc: Global, pattern: &str, folder: &str, name: &str) -> Result<bool, AllocError>
    ensures { IfOk result (λ yes. IsTrue yes ↔ Excludes folder.now name.now pattern.now) }
{
    if has_no_slash(pattern) {
        return is_spelled(alloc, pattern.as_bytes(), name.as_bytes());
    }
    let path = path_of(alloc, folder, name)?;
    is_spelled(
        alloc,
        without_slash(pattern.as_bytes()),
        path.as_str().as_bytes(),
    )
}

/// Whether one of these patterns excludes what has a name in a folder, whose path below the root is empty or ends in
/// `/`. A pattern without `/` is for the name, and another for the path below the root.
pub fn is_excluded(
    alloc: Global,
    patterns: &[String],
    folder: &str,
    name: &str,
) -> Result<bool, AllocError>
    ensures { IfOk result (λ yes. IsTrue yes ↔ IsExcluded (map string_bytes patterns.now) folder.now name.now) }
{
    for pattern in patterns {
        if excludes(alloc, pattern.as_str(), folder, name)? {
            return Ok(true);
        }
    }
    Ok(false)
}
