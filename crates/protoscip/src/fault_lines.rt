//! The line that says why a run stops.

ghost use Rattle.std.specs.Prelude.{◌≡◌, ◌++◌, IfOk, string_bytes};
ghost use Rattle.protoscip.specs.FaultLines.{HasFile, HasFilesOf, path_of, duplicate_line, uncertain_line, line_of, line_with};
ghost use Rattle.protoscip.specs.Lines.{line_at};

use crate::fault::Fault;
use crate::lines::{line_at, path_with, placed_with, plain_line};
use proto_link::FilePlace;
use source_tree::Tree;
use std::alloc::{AllocError, Global};

/// The line, without its end, that says why a run over the tree stops. The offset of a place is in bytes from its
/// file's start. The offset of a source that is too long is that of the first byte over the limit.
///
/// The file numbers in the fault have to be below the tree's `file_count`. Those of a fault that `index_tree` or
/// `session` answers of this tree are. An error means that memory was refused.
pub fn fault_line(alloc: Global, tree: &Tree, fault: &Fault) -> Result<String, AllocError>
    requires { HasFilesOf tree.now fault.now }
    ensures { IfOk result (λ line. string_bytes line ≡ line_of tree.now fault.now) }
{
    line_with(alloc, tree, fault, "", "")
}

/// The line, without its end, that says this, with words before the path of the file at fault: `skipped` if the file is
/// left out for it, and `unresolved` if it only has an import or a use without a target. The line of an uncertain use has
/// words of its own.
pub(crate) fn line_with(
    alloc: Global,
    tree: &Tree,
    fault: &Fault,
    skipped: &str,
    unresolved: &str,
) -> Result<String, AllocError>
    requires { HasFilesOf tree.now fault.now }
    ensures { IfOk result (λ line. string_bytes line ≡ line_with skipped.now unresolved.now tree.now fault.now) }
{
    let name = fault.name();
    match fault {
        Fault::Unread(file) => path_with(alloc, skipped, path_of(tree, *file), name),
        Fault::Lex(file, fault) => {
            placed_with(alloc, skipped, path_of(tree, *file), fault.offset(), name)
        }
        Fault::Syntax(file, fault) => {
            placed_with(alloc, skipped, path_of(tree, *file), fault.offset(), name)
        }
        Fault::Duplicate(first, second) => duplicate_line(
            alloc,
            path_of(tree, first.file),
            first.span.start as usize,
            skipped,
            path_of(tree, second.file),
            second.span.start as usize,
        ),
        Fault::MissingImport(place) => line_at_place(alloc, unresolved, tree, place, name),
        Fault::Unresolved(place) => line_at_place(alloc, unresolved, tree, place, name),
        Fault::Ambiguous(place) => line_at_place(alloc, unresolved, tree, place, name),
        Fault::OptionGap(place) => line_at_place(alloc, unresolved, tree, place, name),
        Fault::Uncertain(place, behind) => uncertain_line(
            alloc,
            path_of(tree, place.file),
            place.span.start as usize,
            path_of(tree, *behind),
        ),
        Fault::Spawn
        | Fault::Memory
        | Fault::TooLarge
        | Fault::Write(_)
        | Fault::Read
        | Fault::Answer(_) => plain_line(alloc, name),
    }
}

/// The path of a file.
pub(crate) fn path_of(tree: &Tree, file: usize) -> &str
    requires { HasFile tree.now file }
    ensures { result.now ≡ path_of tree.now file }
{
    tree.path(file)
}

/// The line of a fault at a place, with words before its file's path.
fn line_at_place(
    alloc: Global,
    words: &str,
    tree: &Tree,
    place: &FilePlace,
    name: &str,
) -> Result<String, AllocError>
    requires { HasFile tree.now place.now.file }
    ensures { IfOk result (λ line. string_bytes line
        ≡ line_at (words.now ++ path_of tree.now place.now.file) place.now.span.start name.now) }
{
    line_at(
        alloc,
        words,
        path_of(tree, place.file),
        place.span.start as usize,
        name,
    )
}

/// The line of two places that give one full name, each told by its path and offset, with words before the path of
/// the later one.
fn duplicate_line(
    alloc: Global,
    path: &str,
    offset: usize,
    words: &str,
    later_path: &str,
    later_offset: usize,
) -> Result<String, AllocError>
    ensures { IfOk result (λ line. string_bytes line
        ≡ duplicate_line path.now offset (words.now ++ later_path.now) later_offset) }
{
    format!(in alloc; "protoscip: {words}{later_path}@{later_offset}: Duplicate of {path}@{offset}")
}

/// `protoscip: uncertain: PATH@OFFSET behind OTHER`, of the paths of two files.
fn uncertain_line(
    alloc: Global,
    path: &str,
    offset: usize,
    behind: &str,
) -> Result<String, AllocError>
    ensures { IfOk result (λ line. string_bytes line ≡ uncertain_line path.now offset behind.now) }
{
    format!(in alloc; "protoscip: uncertain: {path}@{offset} behind {behind}")
}
