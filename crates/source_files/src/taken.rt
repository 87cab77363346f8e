//! Which of the files that were read are taken.

ghost use Rattle.std.specs.Prelude.{◌≡◌, ◌↔◌, [], ◌∷◌, ◌++◌, true, IfOk, IsTrue, OnOk, map};
ghost use Rattle.source_tree.specs.Path.{IsGoodPath};
ghost use Rattle.source_files.specs.Taken.{AddsTaken, bad_of};
ghost use Rattle.source_files.specs.Unread.{unread_of};

use crate::unread_entry::{UnreadEntry, entry_at_bad};
use source_tree::{Source, is_good_path};
use std::alloc::{AllocError, Global};

/// Whether a file is taken: where bad paths are left out, its path is a good one.
fn is_taken(leaves_out: bool, file: &Source) -> bool
    ensures { IsTrue result ↔ (leaves_out ≡ true → IsGoodPath file.now.path) }
{
    !leaves_out || is_good_path(file.path.as_str())
}

/// Tells of a file that isn't taken, unless it can't be read and so is told already.
fn tell_bad(alloc: Global, file: &Source, unread: &mut Vec<UnreadEntry>) -> Result<(), AllocError>
    ensures { OnOk result (map unread_of unread.new.items ≡ map unread_of unread.old.items ++ bad_of file.now) }
{
    if file.is_unread {
        return Ok(());
    }
    unread.push(entry_at_bad(alloc, file.path.as_str())?)?;
    Ok(())
}

/// Adds a file to those that are taken, or to what isn't read.
fn take_one(
    alloc: Global,
    leaves_out: bool,
    file: Source,
    taken: &mut Vec<Source>,
    unread: &mut Vec<UnreadEntry>,
) -> Result<(), AllocError>
    ensures { OnOk result (AddsTaken leaves_out (file ∷ []) taken.old.items taken.new.items
        (map unread_of unread.old.items) (map unread_of unread.new.items)) }
{
    if is_taken(leaves_out, &file) {
        taken.push(file)?;
    } else {
        tell_bad(alloc, &file, unread)?;
    }
    Ok(())
}

/// The files that are taken of these; the others are added to what isn't read.
pub(crate) fn take_each(
    alloc: Global,
    leaves_out: bool,
    files: Vec<Source>,
    unread: &mut Vec<UnreadEntry>,
) -> Result<Vec<Source>, AllocError>
    ensures { IfOk result (λ taken. AddsTaken leaves_out files.items [] taken.items
        (map unread_of unread.old.items) (map unread_of unread.new.items)) }
{
    let mut taken = Vec::new(alloc);
    for file in files {
        take_one(alloc, leaves_out, file, &mut taken, unread)?;
    }
    Ok(taken)
}
