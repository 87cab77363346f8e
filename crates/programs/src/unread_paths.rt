//! What is told of the entries that aren't read below the folders of a run.

ghost use Rattle.std.specs.Prelude.{◌≡◌, IfOk, map};
ghost use Rattle.source_files.specs.Unread.{unread_of};
ghost use Rattle.programs.specs.Folders.{path_unread};

use protoscip::UnreadPath;
use source_files::UnreadEntry;
use std::alloc::{AllocError, Global};

/// What is told of an entry.
fn path_unread(entry: UnreadEntry) -> UnreadPath
    ensures { result ≡ path_unread (unread_of entry) }
{
    let UnreadEntry {
        shown,
        bytes,
        folder: _,
        has_bad_path,
    } = entry;
    UnreadPath {
        shown,
        bytes,
        is_bad: has_bad_path,
    }
}

/// What is told of entries.
pub(crate) fn paths_unread(
    alloc: Global,
    entries: Vec<UnreadEntry>,
) -> Result<Vec<UnreadPath>, AllocError>
    ensures { IfOk result (λ paths. paths.items ≡ map path_unread (map unread_of entries.items)) }
{
    let mut paths = Vec::new(alloc);
    for entry in entries {
        paths.push(path_unread(entry))?;
    }
    Ok(paths)
}
