//! The sources below a root are listed, level by level, on workers.

ghost use Rattle.std.specs.Prelude.{◌≡◌, ◌↔◌, ◌≤◌, [], ◌∷◌, Contains, IfOk, IsTrue, MatchResult, OnOk, Some, length};
ghost use Rattle.std.specs.Prelude.{map, string_bytes};
ghost use Rattle.index_pool.specs.declared.workers.TheConstants.{MAX_INPUTS};
ghost use Rattle.source_files.specs.Unread.{at_path, unread_of};
ghost use Rattle.source_files.specs.Walks.{AreByBytes, AreWalked};
ghost use Rattle.source_files.specs.WalkSteps.{
  AreListedBut,
  GoesOn,
  HaveEach,
  KeepsMore,
  MayNotList,
  Meets,
  Stops,
  StopsWalk,
  had_of,
};

use crate::found::{Found, list_one};
use crate::listing::FolderIdentity;
use crate::load_fault::LoadFault;
use crate::phases::run_anyway;
use crate::read_files::ReadFiles;
use crate::readers::Readers;
use crate::reading::part_of;
use crate::unread_entry::UnreadEntry;
use index_pool::{Gate, Job, MAX_INPUTS, PoolFault, Ticket, Workers};
use std::alloc::{AllocError, Global};
use std::sync::Wait;
use std::thread::Threads;

/// A thread is started for so many folders.
const FOLDERS_OF_A_WORKER: usize = 8;

/// How far a walk is, by paths below the root.
#[derive(Drop)]
pub(crate) struct Walk {
    /// The folders of the next level, each with a `/` at its end, among what may be none.
    pub(crate) folders: Vec<String>,
    /// The folders that were met.
    pub(crate) met: Vec<FolderIdentity>,
    /// The sources found.
    pub(crate) paths: Vec<String>,
    /// What can't be read.
    pub(crate) unread: Vec<UnreadEntry>,
}

/// What each of these folders below a root has.
#[derive(Drop)]
struct ListEach<'a, F: ReadFiles + Sync> {
    alloc: Global,
    files: &'a F,
    root: &'a str,
    folders: &'a [String],
}

impl<'a, F: ReadFiles + Sync> Job for ListEach<'a, F> {
    ghost use Rattle.std.specs.Prelude.{IfOk, IfSome, length, slice_get, string_bytes};
    ghost use Rattle.source_files.specs.Walks.{Has};
    ghost use Rattle.source_files.specs.WalkSteps.{had_of};

    type Out = Found;

    type Fault = AllocError;

    ghost inputs = { λ s. length s.folders.now };

    ghost gives = { λ s number result. IfSome (slice_get s.folders.now number)
        (λ folder. IfOk result (λ found. Has (F.lists s.files.now s.root.now) (string_bytes folder) (had_of found))) };

    fn run(&self, ticket: Ticket) -> Result<Found, AllocError> {
        let folder = self.folders[ticket.number()].as_str();
        list_one(self.alloc, self.files, self.root, folder)
    }
}

/// These workers, but no more than folders keep busy.
fn workers_for(workers: Workers, folders: usize) -> Workers {
    let enough = folders / FOLDERS_OF_A_WORKER + 1;
    Workers::new(enough.min(workers.count())).unwrap()
}

/// What each of these folders below a root has.
fn list_part<R: Threads + Wait, G: Gate, F: ReadFiles + Sync>(
    readers: &Readers<'_, R, G, F>,
    root: &str,
    folders: &[String],
) -> Result<Vec<Found>, AllocError>
    requires { length folders.now ≤ MAX_INPUTS }
    ensures { IfOk result (λ all. HaveEach (F.lists readers.now.files.now root.now) (map string_bytes folders.now)
        all.items) }
{
    let job = ListEach {
        alloc: readers.alloc,
        files: readers.files,
        root,
        folders,
    };
    match run_anyway(
        readers.rt,
        readers.alloc,
        &job,
        folders.len(),
        workers_for(readers.workers, folders.len()),
        readers.gate,
    ) {
        Ok(all) => Ok(all),
        Err(_) => Err(AllocError),
    }
}

/// What each of these folders below a root has, listed in parts of so many as a phase has inputs.
fn list_each<R: Threads + Wait, G: Gate, F: ReadFiles + Sync>(
    readers: &Readers<'_, R, G, F>,
    root: &str,
    folders: &[String],
) -> Result<Vec<Found>, AllocError>
    ensures { IfOk result (λ all. HaveEach (F.lists readers.now.files.now root.now) (map string_bytes folders.now)
        all.items) }
{
    let mut all = Vec::new(readers.alloc);
    let mut rest = folders;
    while !rest.is_empty() {
        let (part, behind) = part_of(rest);
        let mut more = list_part(readers, root, part)?;
        all.append(&mut more)?;
        rest = behind;
    }
    Ok(all)
}

/// Whether a folder was met.
fn is_met(met: &[FolderIdentity], identity: FolderIdentity) -> bool
    ensures { IsTrue result ↔ Contains met.now identity }
{
    met.contains(&identity)
}

/// Whether a folder is new; it is then met.
pub(crate) fn meet(
    met: &mut Vec<FolderIdentity>,
    identity: FolderIdentity,
) -> Result<bool, AllocError>
    ensures { IfOk result (λ is_new. Meets met.old.items (Some identity) is_new met.new.items) }
{
    if is_met(met, identity) {
        return Ok(false);
    }
    met.push(identity)?;
    Ok(true)
}

/// The same of a folder of which it may not be known which it is; it is new then.
fn meet_any(
    met: &mut Vec<FolderIdentity>,
    identity: Option<FolderIdentity>,
) -> Result<bool, AllocError>
    ensures { IfOk result (λ is_new. Meets met.old.items identity is_new met.new.items) }
{
    match identity {
        Some(identity) => meet(met, identity),
        None => Ok(true),
    }
}

/// Adds what a folder has, if it wasn't met.
fn keep_one(walk: &mut Walk, found: Found) -> Result<(), AllocError>
    ensures { OnOk result (KeepsMore (had_of found ∷ []) walk.old walk.new) }
{
    if meet_any(&mut walk.met, found.identity)? {
        let mut found = found;
        walk.folders.append(&mut found.folders)?;
        walk.paths.append(&mut found.paths)?;
        walk.unread.append(&mut found.unread)?;
    }
    Ok(())
}

/// Adds what folders have that weren't met, one after the other.
fn keep_each(walk: &mut Walk, all: Vec<Found>) -> Result<(), AllocError>
    ensures { OnOk result (KeepsMore (map had_of all.items) walk.old walk.new) }
{
    for found in all {
        keep_one(walk, found)?;
    }
    Ok(())
}

/// Paths by their bytes.
fn by_bytes(paths: &mut Vec<String>) -> Result<(), AllocError>
    ensures { OnOk result (AreByBytes (map string_bytes paths.old.items) (map string_bytes paths.new.items)) }
{
    paths.sort()?;
    Ok(())
}

/// Lists the folders of a level.
fn go_on<R: Threads + Wait, G: Gate, F: ReadFiles + Sync>(
    readers: &Readers<'_, R, G, F>,
    root: &str,
    walk: &mut Walk,
) -> Result<(), AllocError>
    ensures { OnOk result (GoesOn (F.lists readers.now.files.now root.now) walk.old walk.new) }
{
    let all = list_each(readers, root, &walk.folders)?;
    walk.folders.clear();
    keep_each(walk, all)?;
    by_bytes(&mut walk.folders)
}

/// The root is left to be listed.
fn begin(alloc: Global) -> Result<Walk, AllocError>
    ensures { IfOk result (λ walk. (map string_bytes walk.folders.items ≡ [] ∷ []) × (walk.met.items ≡ [])
        × (map string_bytes walk.paths.items ≡ []) × (map unread_of walk.unread.items ≡ [])) }
{
    let mut folders = Vec::new(alloc);
    folders.push(String::new(alloc))?;
    Ok(Walk {
        folders,
        met: Vec::new(alloc),
        paths: Vec::new(alloc),
        unread: Vec::new(alloc),
    })
}

/// The paths below a root of the sources found there, by their bytes, and what can't be read there.
fn walk_root<R: Threads + Wait, G: Gate, F: ReadFiles + Sync>(
    readers: &Readers<'_, R, G, F>,
    root: &str,
) -> Result<(Vec<String>, Vec<UnreadEntry>), AllocError>
    ensures { IfOk result (λ walked. AreWalked (F.lists readers.now.files.now root.now)
        (map string_bytes walked.0.items) (map unread_of walked.1.items)) }
{
    let mut walk = begin(readers.alloc)?;
    // A bound for the proof: each time a level is listed, and there aren't so many.
    for _ in 0..usize::MAX {
        if walk.folders.is_empty() {
            by_bytes(&mut walk.paths)?;
            return Ok((walk.paths, walk.unread));
        }
        go_on(readers, root, &mut walk)?;
    }
    Err(AllocError)
}

/// Whether what can't be read is the root itself: its path is empty.
fn is_root(entry: &UnreadEntry) -> bool
    ensures { IsTrue result ↔ (unread_of entry.now ≡ at_path []) }
{
    entry.shown.is_empty()
        && entry.bytes.is_empty()
        && entry.folder.is_none()
        && !entry.has_bad_path
}

/// Whether the root itself is among what can't be read.
fn has_root(unread: &[UnreadEntry]) -> bool
    ensures { IsTrue result ↔ Contains (map unread_of unread.now) (at_path []) }
{
    for entry in unread {
        if is_root(entry) {
            return true;
        }
    }
    false
}

/// Whether this, which can't be read, stops a walk.
fn is_stopped(leaves_out: bool, unread: &[UnreadEntry]) -> bool
    ensures { IsTrue result ↔ Stops leaves_out (map unread_of unread.now) }
{
    if leaves_out {
        has_root(unread)
    } else {
        !unread.is_empty()
    }
}

/// The paths below a root of the sources found there, by their bytes, and of what is left out there: nothing, or all
/// that can't be read but the root itself.
///
/// `Unreadable`, with the root: it can't be listed, or, where nothing is left out, a folder found below it can't be, or
/// one there has an entry whose name isn't UTF-8. Beside it `Memory` may come, and no other fault.
pub(crate) fn list_sources<R: Threads + Wait, G: Gate, F: ReadFiles + Sync>(
    readers: &Readers<'_, R, G, F>,
    root: &str,
) -> Result<(Vec<String>, Vec<UnreadEntry>), LoadFault>
    ensures { MatchResult result
        (λ listed. AreListedBut (F.lists readers.now.files.now root.now) readers.now.leaves_out
        (map string_bytes listed.0.items) (map unread_of listed.1.items))
        (MayNotList (StopsWalk (F.lists readers.now.files.now root.now) readers.now.leaves_out) root.now) }
{
    let (paths, unread) = walk_root(readers, root)?;
    if is_stopped(readers.leaves_out, &unread) {
        let name = String::from_str(readers.alloc, root)?;
        return Err(LoadFault::Unreadable(name));
    }
    Ok((paths, unread))
}
