//! The tree of the sources that a list names, and of the files below the folders that these reach.

ghost use Rattle.std.specs.Prelude.{◌≡◌, ◌≢◌, ◌++◌, ◌∷◌, [], ℕ, List, All, IfErr, IfOk, MatchOption, OnOk, codes, map};
ghost use Rattle.std.specs.Prelude.{Some, string_bytes};
ghost use Rattle.std.specs.Fmt.{decimal};
ghost use Rattle.source_files.specs.Exclusions.{PathsStay};
ghost use Rattle.source_files.specs.ListedTrees.{IsTreeListed};
ghost use Rattle.source_files.specs.Unread.{unread_of};
ghost use Rattle.programs.specs.Folders.{AreFolders, AreSourcesListed, NamePackages, roots_in};
ghost use Rattle.programs.specs.Imports.{TellsIn};
ghost use Rattle.programs.specs.Settings.{leaves_out};
ghost use Rattle.programs.specs.Starting.{IsFaultOf, IsLineOf, MayNotStart, MayNotStartList};

use crate::folders::{Folders, folders_by, folders_read, packages_named};
use crate::imports::ImportsIn;
use crate::source_lists::place_of;
use crate::start_fault::StartFault;
use command_line::{IndexOptions, SourceList};
use index_pool::Gate;
use source_files::{
    ListedPath, LoadFault, LoadedTree, ReadFiles, Readers, is_path_excluded, load_listed,
};
use std::alloc::{AllocError, Global};
use std::sync::Wait;
use std::thread::Threads;

/// Adds a path.
fn push_copy(alloc: Global, paths: &mut Vec<String>, path: &str) -> Result<(), AllocError>
    ensures { OnOk result (map string_bytes paths.new.items ≡ map string_bytes paths.old.items ++ path.now ∷ []) }
{
    let path = String::from_str(alloc, path)?;
    paths.push(path)?;
    Ok(())
}

/// Adds a path, if patterns don't exclude it.
fn add_left(
    alloc: Global,
    excluded: &[String],
    paths: &mut Vec<String>,
    path: &str,
) -> Result<(), AllocError>
    ensures { OnOk result ((more : List (List ℕ)) × PathsStay (map string_bytes excluded.now) (path.now ∷ []) more
        × (map string_bytes paths.new.items ≡ map string_bytes paths.old.items ++ more)) }
{
    if is_path_excluded(alloc, excluded, path)? {
        return Ok(());
    }
    push_copy(alloc, paths, path)?;
    Ok(())
}

/// The path that a line of a list names.
fn path_in(one: &ListedPath) -> &str
    ensures { result.now ≡ one.now.path }
{
    one.path.as_str()
}

/// The paths that a list names, without what patterns exclude.
fn paths_left(
    alloc: Global,
    excluded: &[String],
    listed: &[ListedPath],
) -> Result<Vec<String>, AllocError>
    ensures { IfOk result (λ paths. PathsStay (map string_bytes excluded.now) (map (λ named. named.path) listed.now)
        (map string_bytes paths.items)) }
{
    let mut paths = Vec::new(alloc);
    for one in listed {
        add_left(alloc, excluded, &mut paths, path_in(one))?;
    }
    Ok(paths)
}

/// The number of a line of a list, if it names a path.
fn line_if(one: &ListedPath, path: &str) -> Option<usize>
    ensures { MatchOption result (one.now.path ≢ path.now)
        (λ line. (one.now.path ≡ path.now) × (line ≡ one.now.line)) }
{
    if path_in(one) == path {
        return Some(one.line);
    }
    None
}

/// The number of the first line of a list that names a path, if one does.
fn line_of(listed: &[ListedPath], path: &str) -> Option<usize>
    ensures { MatchOption result (All (λ named. named.path ≢ path.now) listed.now)
        (IsLineOf listed.now path.now) }
{
    for one in listed {
        if let Some(line) = line_if(one, path) {
            return Some(line);
        }
    }
    None
}

/// Why there is no tree. That a source can't be read is the fault of its line in the list; any other stays what it is.
#[tactic(auto, using(crate::proofs::StartingRules::of_list))]
fn fault_of(alloc: Global, list: &SourceList, fault: LoadFault) -> StartFault
    ensures { IsFaultOf list.now fault result }
{
    match fault {
        LoadFault::Unreadable(path) => match line_of(&list.listed, path.as_str()) {
            Some(line) => match place_of(alloc, list.file.as_str(), Some(line)) {
                Ok(place) => StartFault::Unlisted(place, path),
                Err(_) => StartFault::Load(LoadFault::Memory),
            },
            None => StartFault::Load(LoadFault::Unreadable(path)),
        },
        LoadFault::TooMany => StartFault::Load(LoadFault::TooMany),
        LoadFault::BadPath(path) => StartFault::Load(LoadFault::BadPath(path)),
        LoadFault::SamePath(path) => StartFault::Load(LoadFault::SamePath(path)),
        LoadFault::Memory => StartFault::Load(LoadFault::Memory),
    }
}

/// The tree of the sources that a list names below the root of the options, and of the files below the root and the
/// included folders that these reach.
#[tactic(auto, using(crate::proofs::StartingRules::of_list_tree))]
fn load_list<R: Threads + Wait, G: Gate, F: ReadFiles + Sync>(
    readers: &Readers<'_, R, G, F>,
    options: &IndexOptions,
    list: &SourceList,
) -> Result<LoadedTree, StartFault>
    requires { readers.now.leaves_out ≡ leaves_out options.now.faulty }
    ensures loaded { IfOk result (λ loaded. (paths : List (List ℕ)) × AreSourcesListed options.now list.now paths
        × IsTreeListed (F.finds readers.now.files.now) (F.gives readers.now.files.now) (TellsIn options.now.dialect)
        (leaves_out options.now.faulty) options.now.links_options (roots_in options.now) paths loaded.tree
        (map string_bytes loaded.own.items)
        (map (λ here. map string_bytes here.items) loaded.others.items) (map unread_of loaded.unread.items)) }
    ensures stops { IfErr result (MayNotStartList (F.gives readers.now.files.now) (F.finds readers.now.files.now)
        options.now list.now) }
{
    let alloc = readers.alloc;
    let roots = folders_read(alloc, options)?;
    let listed = paths_left(alloc, &options.exclude, &list.listed)?;
    let finder = ImportsIn {
        dialect: options.dialect,
    };
    match load_listed(readers, &finder, options.links_options, &roots, listed) {
        Ok(loaded) => Ok(loaded),
        Err(fault) => Err(fault_of(alloc, list, fault)),
    }
}

/// The tree of the sources that a list names and of the files that they reach, as they are read in the dialect of the
/// options, and the packages that they belong to.
pub(crate) fn folders_of_list<R: Threads + Wait, G: Gate, F: ReadFiles + Sync>(
    readers: &Readers<'_, R, G, F>,
    options: &IndexOptions,
    list: &SourceList,
) -> Result<Folders, StartFault>
    requires faulty { readers.now.leaves_out ≡ leaves_out options.now.faulty }
    requires listed { options.now.sources ≡ Some list.now }
    ensures named { IfOk result (λ _. NamePackages options.now) }
    ensures folders { IfOk result (λ made. AreFolders (F.lists readers.now.files.now) (F.gives readers.now.files.now)
        (F.finds readers.now.files.now)
        options.now made.tree made.unread.items made.packages) }
    ensures stops { IfErr result (MayNotStart (F.lists readers.now.files.now) (F.gives readers.now.files.now)
        (F.finds readers.now.files.now)
        options.now) }
{
    let ids = packages_named(readers.alloc, options)?;
    let loaded = load_list(readers, options, list)?;
    let made = folders_by(readers.alloc, options, ids, loaded)?;
    Ok(made)
}
