//! The sources below a root, with what they hold.

ghost use Rattle.std.specs.Prelude.{◌≡◌, ◌++◌, IfOk, IfErr, map, string_bytes};
ghost use Rattle.source_files.specs.Roots.{AreFilesBelow};
ghost use Rattle.source_files.specs.RootFaults.{MayStop};
ghost use Rattle.source_files.specs.Unread.{unread_of};

use crate::load_fault::LoadFault;
use crate::read_files::ReadFiles;
use crate::readers::Readers;
use crate::reading::read_each;
use crate::root_files::RootFiles;
use crate::unread_entry::UnreadEntry;
use crate::walk::list_sources;
use index_pool::Gate;
use std::alloc::AllocError;
use std::sync::Wait;
use std::thread::Threads;

/// What is read below a root, with what isn't listed there before what isn't read.
fn with_unlisted(unlisted: Vec<UnreadEntry>, read: RootFiles) -> Result<RootFiles, AllocError>
    ensures files { IfOk result (λ below. below.files ≡ read.files) }
    ensures unread { IfOk result (λ below. below.unread ≡ map unread_of unlisted.items ++ read.unread) }
{
    let RootFiles { files, unread } = read;
    let mut all = unlisted;
    let mut unread = unread;
    all.append(&mut unread)?;
    Ok(RootFiles { files, unread: all })
}

/// The sources below a root, by path. Folders are listed and sources read on workers: on the calling thread alone if a
/// thread can't be started.
///
/// `Unreadable`: the root, where it or a folder below it can't be listed, or else the first source that can't be read.
/// Where what can't be read is left out, it comes only of a root that can't be listed itself. Beside it `Memory` may
/// come, and no other fault.
pub fn read_root<R: Threads + Wait, G: Gate, F: ReadFiles + Sync>(
    readers: &Readers<'_, R, G, F>,
    root: &str,
) -> Result<RootFiles, LoadFault>
    ensures ok { IfOk result (AreFilesBelow (F.lists readers.now.files.now) (F.gives readers.now.files.now)
        readers.now.leaves_out root.now) }
    ensures err { IfErr result (MayStop (F.lists readers.now.files.now) (F.gives readers.now.files.now)
        readers.now.leaves_out root.now) }
{
    let (paths, unlisted) = list_sources(readers, root)?;
    let read = read_each(readers, root, &paths)?;
    Ok(with_unlisted(unlisted, read)?)
}
