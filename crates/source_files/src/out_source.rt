//! Whether a file that was read is the one that is at a place.

ghost use Rattle.std.specs.Prelude.{◌<◌, IfOk, IfSome, length, map, slice_get, string_bytes};
ghost use Rattle.source_files.specs.Places.{IsAsked, IsAskedBelow, IsSaid};

use crate::out_place::OutPlace;
use crate::reading::path_below;
use source_tree::Tree;
use std::alloc::{AllocError, Global};

/// Whether the file of a tree with a number could be read and is, below a root, the one that is at a place.
fn is_read_at<P: OutPlace>(
    alloc: Global,
    place: &P,
    root: &str,
    tree: &Tree,
    number: usize,
) -> Result<bool, AllocError>
    requires { number < length tree.now }
    ensures { IfOk result (λ answer. IfSome (slice_get tree.now number) (IsSaid (P.same place.now) root.now answer)) }
{
    if tree.is_unread(number) {
        return Ok(false);
    }
    let path = path_below(alloc, root, tree.path(number))?;
    Ok(place.is_file(path.as_str()))
}

/// Whether one of the files of a tree, below a root, is the one that is at a place.
fn is_read_below<P: OutPlace>(
    alloc: Global,
    place: &P,
    root: &str,
    tree: &Tree,
) -> Result<bool, AllocError>
    ensures { IfOk result (IsAskedBelow (P.same place.now) root.now tree.now) }
{
    for number in 0..tree.file_count() {
        if is_read_at(alloc, place, root, tree, number)? {
            return Ok(true);
        }
    }
    Ok(false)
}

/// Whether one of the files of a tree that could be read, below one of the roots that it was read from, is the one that
/// is at a place. So the others with its path are asked about too, which don't count.
pub fn is_read_from<P: OutPlace>(
    alloc: Global,
    place: &P,
    roots: &[String],
    tree: &Tree,
) -> Result<bool, AllocError>
    ensures { IfOk result (IsAsked (P.same place.now) (map string_bytes roots.now) tree.now) }
{
    if !place.may_be_source() {
        return Ok(false);
    }
    for root in roots {
        if is_read_below(alloc, place, root.as_str(), tree)? {
            return Ok(true);
        }
    }
    Ok(false)
}
