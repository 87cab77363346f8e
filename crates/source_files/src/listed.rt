//! The tree of the sources that a list names, and of the files that they reach.

ghost use Rattle.std.specs.Prelude.{◌≡◌, ◌≢◌, ◌==◌, false, ◌++◌, ◌∷◌, [], ℕ, List, IfErr, IfOk, MatchResult, OnOk, length, map};
ghost use Rattle.std.specs.Prelude.{string_bytes, take};
ghost use Rattle.source_tree.specs.Trees.{IsTreeOf};
ghost use Rattle.source_files.specs.LoadFaults.{MayRefuseFiles};
ghost use Rattle.source_files.specs.Roots.{unread_file};
ghost use Rattle.source_files.specs.Unread.{at_path, unread_of};
ghost use Rattle.source_files.specs.Walks.{AreEachOnce, AreOnce};
ghost use Rattle.source_files.specs.Closures.{MayRefuseUnread};
ghost use Rattle.source_files.specs.Reached.{AreIncluded, AreSources, MayNotInclude};
ghost use Rattle.source_files.specs.ListedTrees.{
  AreInTree,
  IsTreeListed,
  MayNotFind,
  MayNotLoadListed,
  files_of,
  files_with,
  paths_at,
  paths_behind,
};

use crate::closure::{Gathered, gather, push_copy, reach_each, set_of};
use crate::find_imports::FindImports;
use crate::load::{LoadedTree, make_tree, once};
use crate::load_fault::LoadFault;
use crate::looking::{FoundFile, Looking, look_each};
use crate::read_files::ReadFiles;
use crate::readers::Readers;
use crate::reading::unread_at;
use crate::unread_entry::{UnreadEntry, each_once, entry_at};
use index_pool::Gate;
use source_tree::{Source, Tree};
use std::alloc::{AllocError, Global};
use std::sync::Wait;
use std::thread::Threads;

/// Whether a file is below the root with a number.
fn is_at(found: &FoundFile, root: usize) -> bool
    ensures { result ≡ (found.now.root == root) }
{
    found.root == root
}

/// Adds the path of a file, if it is below the root with a number.
fn add_path_at(
    alloc: Global,
    root: usize,
    paths: &mut Vec<String>,
    found: &FoundFile,
) -> Result<(), AllocError>
    ensures { OnOk result (map string_bytes paths.new.items
        ≡ map string_bytes paths.old.items ++ paths_at root (found.now ∷ [])) }
{
    if is_at(found, root) {
        push_copy(alloc, paths, found.file.path.as_str())?;
    }
    Ok(())
}

/// Adds the paths of files that are below the root with a number.
fn add_paths_at(
    alloc: Global,
    root: usize,
    paths: &mut Vec<String>,
    files: &[FoundFile],
) -> Result<(), AllocError>
    ensures { OnOk result (map string_bytes paths.new.items
        ≡ map string_bytes paths.old.items ++ paths_at root files.now) }
{
    let mut rest = files;
    while let [found, others @ ..] = rest {
        add_path_at(alloc, root, paths, found)?;
        rest = others;
    }
    Ok(())
}

/// The paths of files that are below the root with a number.
fn paths_at(alloc: Global, root: usize, files: &[FoundFile]) -> Result<Vec<String>, AllocError>
    ensures { IfOk result (λ paths. map string_bytes paths.items ≡ paths_at root files.now) }
{
    let mut paths = Vec::new(alloc);
    add_paths_at(alloc, root, &mut paths, files)?;
    Ok(paths)
}

/// Adds the paths of files that are below the root with a number.
fn push_paths_at(
    alloc: Global,
    root: usize,
    others: &mut Vec<Vec<String>>,
    files: &[FoundFile],
) -> Result<(), AllocError>
    ensures { OnOk result (map (λ paths. map string_bytes paths.items) others.new.items
        ≡ map (λ paths. map string_bytes paths.items) others.old.items ++ paths_at root files.now ∷ []) }
{
    others.push(paths_at(alloc, root, files)?)?;
    Ok(())
}

/// The paths of files that are below each of so many roots but the first.
fn paths_behind(
    alloc: Global,
    roots: usize,
    files: &[FoundFile],
) -> Result<Vec<Vec<String>>, AllocError>
    ensures { IfOk result (λ others. map (λ paths. map string_bytes paths.items) others.items
        ≡ paths_behind roots files.now) }
{
    let mut others = Vec::new(alloc);
    for number in 1..roots {
        push_paths_at(alloc, number, &mut others, files)?;
    }
    Ok(others)
}

/// The files alone.
fn files_of(alloc: Global, all: Vec<FoundFile>) -> Result<Vec<Source>, AllocError>
    ensures { IfOk result (λ files. files.items ≡ files_of all.items) }
{
    let mut files = Vec::new(alloc);
    for found in all {
        files.push(found.file)?;
    }
    Ok(files)
}

/// Adds the files that have these paths and can't be read.
fn add_unread(alloc: Global, files: &mut Vec<Source>, paths: &[String]) -> Result<(), AllocError>
    ensures { OnOk result (files.new.items ≡ files.old.items ++ map unread_file (map string_bytes paths.now)) }
{
    for path in paths {
        files.push(unread_at(alloc, path.as_str())?)?;
    }
    Ok(())
}

/// The files alone, and behind them those that can't be read.
fn files_with(alloc: Global, all: Gathered) -> Result<Vec<Source>, AllocError>
    ensures { IfOk result (λ files. files.items ≡ files_with all.found all.unread) }
{
    let Gathered { found, unread } = all;
    let mut files = files_of(alloc, found)?;
    add_unread(alloc, &mut files, &unread)?;
    Ok(files)
}

/// Adds what has these paths and can't be read.
fn add_entries(
    alloc: Global,
    entries: &mut Vec<UnreadEntry>,
    paths: &[String],
) -> Result<(), AllocError>
    ensures { OnOk result (map unread_of entries.new.items
        ≡ map unread_of entries.old.items ++ map at_path (map string_bytes paths.now)) }
{
    for path in paths {
        entries.push(entry_at(alloc, path.as_str())?)?;
    }
    Ok(())
}

/// What has these paths is left out: each once.
fn all_unread(
    alloc: Global,
    lost: &[String],
    left: &[String],
) -> Result<Vec<UnreadEntry>, AllocError>
    ensures { IfOk result (λ unread. AreEachOnce (map at_path (map string_bytes lost.now
        ++ map string_bytes left.now))
        (map unread_of unread.items)) }
{
    let mut entries = Vec::new(alloc);
    add_entries(alloc, &mut entries, lost)?;
    add_entries(alloc, &mut entries, left)?;
    each_once(entries)
}

/// The paths of the files below the first root, of sources and then of files that they reach.
fn own_paths(
    alloc: Global,
    sources: &[FoundFile],
    included: &[FoundFile],
) -> Result<Vec<String>, AllocError>
    ensures { IfOk result (λ paths. map string_bytes paths.items ≡ paths_at 0 sources.now ++ paths_at 0 included.now) }
{
    let mut paths = paths_at(alloc, 0, sources)?;
    add_paths_at(alloc, 0, &mut paths, included)?;
    Ok(paths)
}

/// The tree of what was gathered, what can't be read included.
fn make_of(alloc: Global, sources: Gathered, included: Gathered) -> Result<Tree, LoadFault>
    ensures { MatchResult result
        (IsTreeOf (files_with sources.found sources.unread) (files_with included.found included.unread))
        (MayRefuseFiles (files_with sources.found sources.unread) (files_with included.found included.unread)) }
{
    let sources = files_with(alloc, sources)?;
    let included = files_with(alloc, included)?;
    make_tree(alloc, sources, included)
}

/// The tree of sources, and of the files that they reach below so many roots.
fn tree_of(
    alloc: Global,
    roots: usize,
    sources: Gathered,
    included: Gathered,
) -> Result<LoadedTree, LoadFault>
    ensures { MatchResult result
        (λ loaded. AreInTree roots sources.found included.found sources.unread included.unread loaded.tree
        (map string_bytes loaded.own.items) (map (λ paths. map string_bytes paths.items) loaded.others.items)
        (map unread_of loaded.unread.items))
        (MayRefuseFiles (files_with sources.found sources.unread) (files_with included.found included.unread)) }
{
    let own = own_paths(alloc, &sources.found, &included.found)?;
    let others = paths_behind(alloc, roots, &included.found)?;
    let unread = all_unread(alloc, &sources.unread, &included.unread)?;
    let tree = make_of(alloc, sources, included)?;
    Ok(LoadedTree {
        tree,
        own,
        others,
        unread,
    })
}

/// The first of these roots alone.
fn first_alone(roots: &[String]) -> &[String]
    ensures { map string_bytes result.now ≡ take 1 (map string_bytes roots.now) }
{
    match roots {
        [] => roots,
        [_, ..] => &roots[..1],
    }
}

/// The sources with these paths below roots.
fn sources_of<R: Threads + Wait, G: Gate, F: ReadFiles + Sync, I: FindImports + Sync>(
    readers: &Readers<'_, R, G, F>,
    finder: &I,
    roots: &[String],
    listed: &[String],
) -> Result<Gathered, LoadFault>
    ensures { MatchResult result
        (λ all. AreSources (F.finds readers.now.files.now) (F.gives readers.now.files.now) (I.tells finder.now)
        readers.now.leaves_out (map string_bytes roots.now) (map string_bytes listed.now) all.found
        all.unread)
        (MayNotFind (F.finds readers.now.files.now) (F.gives readers.now.files.now) (I.tells finder.now)
        readers.now.leaves_out (map string_bytes roots.now) (map string_bytes listed.now)) }
{
    let looking = Looking {
        alloc: readers.alloc,
        files: readers.files,
        finder,
        leaves_out: readers.leaves_out,
        is_wanted: true,
        roots,
    };
    let looked = look_each(readers, &looking, listed)?;
    let all = gather(readers.alloc, looked)?;
    Ok(all)
}

/// That the first of some paths, by path, can't be read.
fn fault_of_unread(paths: Vec<String>) -> LoadFault
    requires { paths.items ≢ [] }
    ensures { MayRefuseUnread (map string_bytes paths.items) result }
{
    match once(paths) {
        Ok(sorted) => {
            let mut sorted = sorted;
            LoadFault::Unreadable(sorted.swap_remove(0))
        }
        Err(_) => LoadFault::Memory,
    }
}

/// What was gathered, if all could be read, or what can't be read is to be left out.
fn unless_unread(leaves_out: bool, all: Gathered) -> Result<Gathered, LoadFault>
    ensures kept { IfOk result (λ kept. (kept ≡ all) × (leaves_out ≡ false → all.unread ≡ [])) }
    ensures refused { IfErr result (λ fault. (leaves_out ≡ false) × MayRefuseUnread all.unread fault) }
{
    if leaves_out || all.unread.is_empty() {
        return Ok(all);
    }
    let Gathered { found: _, unread } = all;
    Err(fault_of_unread(unread))
}

/// The files that these sources reach below roots, whose paths are those that are listed.
fn included_of<R: Threads + Wait, G: Gate, F: ReadFiles + Sync, I: FindImports + Sync>(
    readers: &Readers<'_, R, G, F>,
    finder: &I,
    links_options: bool,
    roots: &[String],
    listed: &[String],
    sources: &[FoundFile],
) -> Result<Gathered, LoadFault>
    ensures { MatchResult result
        (λ all. AreIncluded (F.finds readers.now.files.now) (F.gives readers.now.files.now) (I.tells finder.now)
        readers.now.leaves_out links_options (map string_bytes roots.now) (map string_bytes listed.now)
        sources.now all.found all.unread)
        (MayNotInclude (F.finds readers.now.files.now) (F.gives readers.now.files.now) (I.tells finder.now)
        readers.now.leaves_out links_options (map string_bytes roots.now) (map string_bytes listed.now)
        sources.now) }
{
    let known = set_of(readers.alloc, listed)?;
    let looking = Looking {
        alloc: readers.alloc,
        files: readers.files,
        finder,
        leaves_out: true,
        is_wanted: false,
        roots,
    };
    let all = reach_each(readers, &looking, links_options, known, sources)?;
    unless_unread(readers.leaves_out, all)
}

/// The tree of the sources with these paths, each of which comes once, and of the files that they reach.
fn load_once<R: Threads + Wait, G: Gate, F: ReadFiles + Sync, I: FindImports + Sync>(
    readers: &Readers<'_, R, G, F>,
    finder: &I,
    links_options: bool,
    roots: &[String],
    once: &[String],
) -> Result<LoadedTree, LoadFault>
    ensures tree { IfOk result (λ loaded. (listed : List (List ℕ)) → AreOnce listed (map string_bytes once.now)
        → IsTreeListed (F.finds readers.now.files.now) (F.gives readers.now.files.now) (I.tells finder.now)
        readers.now.leaves_out links_options (map string_bytes roots.now)
        listed loaded.tree (map string_bytes loaded.own.items)
        (map (λ paths. map string_bytes paths.items) loaded.others.items) (map unread_of loaded.unread.items)) }
    ensures refused { IfErr result (λ fault. (listed : List (List ℕ)) → AreOnce listed (map string_bytes once.now)
        → MayNotLoadListed (F.finds readers.now.files.now) (F.gives readers.now.files.now) (I.tells finder.now)
        readers.now.leaves_out links_options (map string_bytes roots.now)
        listed fault) }
{
    let sources = sources_of(readers, finder, first_alone(roots), once)?;
    let included = included_of(readers, finder, links_options, roots, once, &sources.found)?;
    let tree = tree_of(readers.alloc, roots.len(), sources, included)?;
    Ok(tree)
}

/// The tree of the sources with these paths below the first of some roots, and of the files that they reach: these are
/// looked for below each root, in order. No folder is listed. If names in options aren't linked, they reach what they see;
/// if they are, also what included files import privately, and `google/protobuf/descriptor.proto`.
///
/// `Unreadable`: a source or a file that a source reaches can't be read, or a source isn't there: the first source by
/// path, or else such a file. It doesn't come where what can't be read is left out. Then `TooMany` and `BadPath`, as
/// `load_tree` says.
pub fn load_listed<R: Threads + Wait, G: Gate, F: ReadFiles + Sync, I: FindImports + Sync>(
    readers: &Readers<'_, R, G, F>,
    finder: &I,
    links_options: bool,
    roots: &[String],
    listed: Vec<String>,
) -> Result<LoadedTree, LoadFault>
    ensures tree { IfOk result (λ loaded. IsTreeListed (F.finds readers.now.files.now)
        (F.gives readers.now.files.now) (I.tells finder.now)
        readers.now.leaves_out links_options (map string_bytes roots.now)
        (map string_bytes listed.items) loaded.tree (map string_bytes loaded.own.items)
        (map (λ paths. map string_bytes paths.items) loaded.others.items) (map unread_of loaded.unread.items)) }
    ensures refused { IfErr result (MayNotLoadListed (F.finds readers.now.files.now) (F.gives readers.now.files.now)
        (I.tells finder.now)
        readers.now.leaves_out links_options (map string_bytes roots.now)
        (map string_bytes listed.items)) }
{
    let once = once(listed)?;
    let tree = load_once(readers, finder, links_options, roots, &once)?;
    Ok(tree)
}
