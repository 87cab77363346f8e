//! The forms of a line that says why a program stops.

ghost use Rattle.std.specs.Prelude.{◌≡◌, ◌++◌, IfOk, string_bytes};
ghost use Rattle.protoscip.specs.Lines.{plain_line, path_line, line_at, placed_line};

use std::alloc::{AllocError, Global};

/// `protoscip: NAME`
pub fn plain_line(alloc: Global, name: &str) -> Result<String, AllocError>
    ensures { IfOk result (λ line. string_bytes line ≡ plain_line name.now) }
{
    format!(in alloc; "protoscip: {name}")
}

/// `protoscip: PATH: NAME`
pub fn path_line(alloc: Global, path: &str, name: &str) -> Result<String, AllocError>
    ensures { IfOk result (λ line. string_bytes line ≡ path_line path.now name.now) }
{
    path_with(alloc, "", path, name)
}

/// The same, with words before the path.
pub(crate) fn path_with(
    alloc: Global,
    words: &str,
    path: &str,
    name: &str,
) -> Result<String, AllocError>
    ensures { IfOk result (λ line. string_bytes line ≡ path_line (words.now ++ path.now) name.now) }
{
    format!(in alloc; "protoscip: {words}{path}: {name}")
}

/// `protoscip: PATH@OFFSET: NAME`, with words before the path.
pub(crate) fn line_at(
    alloc: Global,
    words: &str,
    path: &str,
    offset: usize,
    name: &str,
) -> Result<String, AllocError>
    ensures { IfOk result (λ line. string_bytes line ≡ line_at (words.now ++ path.now) offset name.now) }
{
    format!(in alloc; "protoscip: {words}{path}@{offset}: {name}")
}

/// The same; without the path if there is no offset.
pub(crate) fn placed_with(
    alloc: Global,
    words: &str,
    path: &str,
    offset: Option<usize>,
    name: &str,
) -> Result<String, AllocError>
    ensures { IfOk result (λ line. string_bytes line ≡ placed_line (words.now ++ path.now) offset name.now) }
{
    match offset {
        Some(offset) => line_at(alloc, words, path, offset, name),
        None => plain_line(alloc, name),
    }
}

/// `protoscip: PATH@OFFSET: NAME`; without the path if there is no offset.
pub fn placed_line(
    alloc: Global,
    path: &str,
    offset: Option<usize>,
    name: &str,
) -> Result<String, AllocError>
    ensures { IfOk result (λ line. string_bytes line ≡ placed_line path.now offset name.now) }
{
    placed_with(alloc, "", path, offset, name)
}
