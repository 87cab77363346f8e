//! The tree of the sources below a root and the files below included roots.

ghost use Rattle.std.specs.Prelude.{
  ◌≡◌,
  ◌+◌,
  ◌++◌,
  ◌<◌,
  [],
  ◌∷◌,
  Some,
  IfOk,
  IfErr,
  MatchResult,
  OnOk,
  length,
  map,
  slice_get,
  string_bytes,
};
ghost use Rattle.std.specs.List.{AllZip};
ghost use Rattle.std.specs.Option.{option_map};
ghost use Rattle.source_tree.specs.Trees.{IsTreeOf};
ghost use Rattle.source_files.specs.Roots.{AreFilesBelow, all_unread, files_of};
ghost use Rattle.source_files.specs.Unread.{unread_of};
ghost use Rattle.source_files.specs.Walks.{AreOnce};
ghost use Rattle.source_files.specs.Loads.{AreLoaded, IsLoadedBelow, IsTreeBelow, MayNotLoad};
ghost use Rattle.source_files.specs.LoadFaults.{MayRefuseFiles, MayRefuseTaken, MayStopBelow};

use crate::folders::{paths_of, paths_of_each};
use crate::load_fault::LoadFault;
use crate::read_files::ReadFiles;
use crate::readers::Readers;
use crate::root::read_root;
use crate::root_files::RootFiles;
use crate::taken::take_each;
use crate::unread_entry::{UnreadEntry, each_once};
use index_pool::Gate;
use source_tree::{Source, Tree, TreeFault, one_sorting_by_path};
use std::alloc::{AllocError, Global};
use std::sync::Wait;
use std::thread::Threads;

/// Adds what was read below a root.
fn add_root(each: &mut Vec<RootFiles>, below: RootFiles) -> Result<(), AllocError>
    ensures { OnOk result (each.new.items ≡ each.old.items ++ below ∷ []) }
{
    each.push(below)?;
    Ok(())
}

/// What is read below each of these roots.
fn read_roots<R: Threads + Wait, G: Gate, F: ReadFiles + Sync>(
    readers: &Readers<'_, R, G, F>,
    roots: &[String],
) -> Result<Vec<RootFiles>, LoadFault>
    ensures ok { IfOk result (λ each. AllZip (AreFilesBelow (F.lists readers.now.files.now)
        (F.gives readers.now.files.now) readers.now.leaves_out) (map string_bytes roots.now) each.items) }
    ensures err { IfErr result (MayStopBelow (F.lists readers.now.files.now) (F.gives readers.now.files.now)
        readers.now.leaves_out (map string_bytes roots.now)) }
{
    let mut each = Vec::new(readers.alloc);
    for root in roots {
        let below = read_root(readers, root.as_str())?;
        add_root(&mut each, below)?;
    }
    Ok(each)
}

/// The path of the file with a number.
fn path_of(files: Vec<Source>, number: usize) -> String
    requires { number < length files.items }
    ensures { option_map (λ file. file.path) (slice_get files.items number) ≡ Some (string_bytes result) }
{
    let mut files = files;
    files.swap_remove(number).path
}

/// The path of the file with a number, through the sources and then the included files.
fn path_among(sources: Vec<Source>, included: Vec<Source>, number: usize) -> String
    requires { number < length sources.items + length included.items }
    ensures { option_map (λ file. file.path) (slice_get (sources.items ++ included.items) number)
        ≡ Some (string_bytes result) }
{
    let count = sources.len();
    if number < count {
        path_of(sources, number)
    } else {
        path_of(included, number - count)
    }
}

/// The tree of files that were read.
pub(crate) fn make_tree(
    alloc: Global,
    sources: Vec<Source>,
    included: Vec<Source>,
) -> Result<Tree, LoadFault>
    ensures { MatchResult result (IsTreeOf sources.items included.items) (MayRefuseFiles sources.items included.items) }
{
    one_sorting_by_path();
    match Tree::with_included(alloc, sources, included) {
        Ok(tree) => Ok(tree),
        Err((lists, fault)) => {
            let (sources, included) = lists;
            match fault {
                TreeFault::TooMany => Err(LoadFault::TooMany),
                TreeFault::BadPath(number) => {
                    let path = path_among(sources, included, number);
                    Err(LoadFault::BadPath(path))
                }
                TreeFault::SamePath(number) => Err(LoadFault::SamePath(path_of(sources, number))),
                TreeFault::Memory => Err(LoadFault::Memory),
            }
        }
    }
}

/// A tree, and what was left out of it.
#[derive(Debug, Drop)]
pub struct Loaded {
    /// The tree.
    pub tree: Tree,
    /// What isn't read, by its path below its root, each once, in order of what is shown of it.
    pub unread: Vec<UnreadEntry>,
}

/// Adds what was read below roots: the files, and what is left out.
fn add_each(
    files: &mut Vec<Source>,
    unread: &mut Vec<UnreadEntry>,
    each: Vec<RootFiles>,
) -> Result<(), AllocError>
    ensures files { OnOk result (files.new.items ≡ files.old.items ++ files_of each.items) }
    ensures unread { OnOk result (map unread_of unread.new.items
        ≡ map unread_of unread.old.items ++ all_unread each.items) }
{
    for below in each {
        let mut below = below;
        files.append(&mut below.files)?;
        unread.append(&mut below.unread)?;
    }
    Ok(())
}

/// Paths by their bytes, each once.
pub fn once(paths: Vec<String>) -> Result<Vec<String>, AllocError>
    ensures { IfOk result (λ once. AreOnce (map string_bytes paths.items) (map string_bytes once.items)) }
{
    let mut paths = paths;
    paths.sort()?;
    paths.dedup();
    Ok(paths)
}

/// The tree of what was read below a root and below included roots, but bad paths, if what can't be read is left out.
fn make_loaded(
    alloc: Global,
    leaves_out: bool,
    own: RootFiles,
    others: Vec<RootFiles>,
) -> Result<Loaded, LoadFault>
    ensures { MatchResult result
        (λ loaded. AreLoaded leaves_out loaded.tree (map unread_of loaded.unread.items) own others.items)
        (MayRefuseTaken leaves_out own others.items) }
{
    let RootFiles { files, unread } = own;
    let mut unread = unread;
    let mut included = Vec::new(alloc);
    add_each(&mut included, &mut unread, others)?;
    let sources = take_each(alloc, leaves_out, files, &mut unread)?;
    let included = take_each(alloc, leaves_out, included, &mut unread)?;
    let unread = each_once(unread)?;
    let tree = make_tree(alloc, sources, included)?;
    Ok(Loaded { tree, unread })
}

/// The tree of the sources below a root and of the files below included roots, which are read in
/// order, each by the paths below it.
///
/// `Unreadable`: what can't be read first, root by root: the root, which can't be listed, or else the
/// first file below it. Where what can't be read is left out, it comes only of a root that can't be listed itself. Then
/// `TooMany`, `BadPath`, of the first bad path through the sources and then the included files, and `SamePath`.
/// `Memory` may come at any step.
pub fn load_tree<R: Threads + Wait, G: Gate, F: ReadFiles + Sync>(
    readers: &Readers<'_, R, G, F>,
    root: &str,
    included: &[String],
) -> Result<Loaded, LoadFault>
    ensures tree { IfOk result (λ loaded. IsTreeBelow (F.lists readers.now.files.now) (F.gives readers.now.files.now)
        readers.now.leaves_out root.now (map string_bytes included.now) loaded.tree
        (map unread_of loaded.unread.items)) }
    ensures refused { IfErr result (MayNotLoad (F.lists readers.now.files.now) (F.gives readers.now.files.now)
        readers.now.leaves_out root.now (map string_bytes included.now)) }
{
    let own = read_root(readers, root)?;
    let others = read_roots(readers, included)?;
    make_loaded(readers.alloc, readers.leaves_out, own, others)
}

/// A tree, and the paths of the files below each of the folders that it was read from.
#[derive(Debug, Drop)]
pub struct LoadedTree {
    /// The tree.
    pub tree: Tree,
    /// The paths of the files below the root: of the sources, and with a list of those that were read, and that sources
    /// see.
    pub own: Vec<String>,
    /// For each included root the paths of the files below it.
    pub others: Vec<Vec<String>>,
    /// What isn't read, by its path below its root, each once, in order of what is shown of it.
    pub unread: Vec<UnreadEntry>,
}

/// The tree that `load_tree` makes, or why it makes none, with the paths of the files of each folder.
pub fn load_tree_with_paths<R: Threads + Wait, G: Gate, F: ReadFiles + Sync>(
    readers: &Readers<'_, R, G, F>,
    root: &str,
    included: &[String],
) -> Result<LoadedTree, LoadFault>
    ensures loaded { IfOk result (λ loaded. IsLoadedBelow (F.lists readers.now.files.now)
        (F.gives readers.now.files.now) readers.now.leaves_out root.now (map string_bytes included.now) loaded.tree
        (map string_bytes loaded.own.items) (map (λ paths. map string_bytes paths.items) loaded.others.items)
        (map unread_of loaded.unread.items)) }
    ensures refused { IfErr result (MayNotLoad (F.lists readers.now.files.now) (F.gives readers.now.files.now)
        readers.now.leaves_out root.now (map string_bytes included.now)) }
{
    let here = read_root(readers, root)?;
    let own = paths_of(readers.alloc, &here.files)?;
    let each = read_roots(readers, included)?;
    let others = paths_of_each(readers.alloc, &each)?;
    let Loaded { tree, unread } = make_loaded(readers.alloc, readers.leaves_out, here, each)?;
    Ok(LoadedTree {
        tree,
        own,
        others,
        unread,
    })
}
