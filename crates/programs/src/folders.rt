//! The folders that options name: their tree, and the packages that its files belong to.

ghost use Rattle.std.specs.Prelude.{◌≡◌, ◌∷◌, ◌++◌, [], IfOk, IfErr, None, OnOk, map, string_bytes, All};
ghost use Rattle.scip_build.specs.AsRead.{AreReadIn};
ghost use Rattle.scip_symbol.specs.Package.{IsPackage};
ghost use Rattle.source_files.specs.Unread.{unread_of};
ghost use Rattle.programs.specs.Settings.{leaves_out, package_in};
ghost use Rattle.programs.specs.Folders.{
  AddsRoots,
  AreByFolder,
  AreFolders,
  NamePackages,
  folder_package,
  included_in,
  included_packages,
  path_unread,
  roots_in,
  roots_of,
};
ghost use Rattle.programs.specs.Starting.{HasNoPackage, IsBadFolder, MayNotStart, NameNoPackages, NamesNone};

use crate::listed_folders::folders_of_list;
use crate::package::package_of;
use crate::start_fault::StartFault;
use crate::unread_paths::paths_unread;
use command_line::{IndexOptions, PackageFolder};
use index_pool::Gate;
use protoscip::UnreadPath;
use scip_build::as_read;
use scip_model::{FilePackages, RootPackage};
use scip_symbol::PackageId;
use source_files::{Loaded, LoadedTree, ReadFiles, Readers, load_tree, load_tree_with_paths};
use source_tree::Tree;
use std::alloc::{AllocError, Global};
use std::sync::Wait;
use std::thread::Threads;

/// The package of a folder.
#[tactic(auto, using(crate::proofs::StartingRules::of_folder))]
fn package_of_folder(alloc: Global, folder: &PackageFolder) -> Result<PackageId, StartFault>
    ensures named { IfOk result (λ id. (id ≡ folder_package folder.now) × IsPackage (folder_package folder.now)) }
    ensures bad { IfErr result (IsBadFolder folder.now) }
{
    let manager = String::from_str(alloc, folder.manager.as_str())?;
    let name = String::from_str(alloc, folder.name.as_str())?;
    let version = String::from_str(alloc, folder.release.as_str())?;
    match PackageId::new([manager, name, version]) {
        Ok(id) => Ok(id),
        Err(_) => {
            let path = String::from_str(alloc, folder.folder.as_str())?;
            Err(StartFault::BadFolder(path))
        }
    }
}

/// Adds a package after those that are there.
fn push_package(ids: &mut Vec<PackageId>, id: PackageId) -> Result<(), AllocError>
    ensures { OnOk result (ids.new.items ≡ ids.old.items ++ id ∷ []) }
{
    ids.push(id)?;
    Ok(())
}

/// The packages of folders, in order. `BadFolder` names the first that has none.
#[tactic(auto, using(crate::proofs::StartingRules::of_folders))]
fn packages_of_folders(
    alloc: Global,
    folders: &[PackageFolder],
) -> Result<Vec<PackageId>, StartFault>
    ensures named { IfOk result (λ ids. (ids.items ≡ map folder_package folders.now) × All (λ folder. IsPackage
        (folder_package folder)) folders.now) }
    ensures bad { IfErr result (HasNoPackage folders.now) }
{
    let mut ids = Vec::new(alloc);
    for folder in folders {
        push_package(&mut ids, package_of_folder(alloc, folder)?)?;
    }
    Ok(ids)
}

/// The packages of the included folders, in order: of those without one of their own that of the run.
#[tactic(auto, using(crate::proofs::StartingRules::of_run))]
fn packages_of_included(
    alloc: Global,
    options: &IndexOptions,
    ids: Vec<PackageId>,
) -> Result<Vec<PackageId>, StartFault>
    requires { ids.items ≡ map folder_package options.now.include_packages.items }
    ensures all { IfOk result (λ all. all.items ≡ included_packages options.now) }
    ensures bad { IfErr result (NamesNone options.now) }
{
    let mut all = Vec::new(alloc);
    for _ in &options.include {
        push_package(&mut all, package_of(alloc, options)?)?;
    }
    let mut ids = ids;
    all.append(&mut ids)?;
    Ok(all)
}

/// The folders with included files: first those without a package of their own.
fn included_folders(alloc: Global, options: &IndexOptions) -> Result<Vec<String>, AllocError>
    ensures { IfOk result (λ folders. map string_bytes folders.items ≡ included_in options.now) }
{
    let mut folders = Vec::new(alloc);
    for folder in &options.include {
        folders.push(String::from_str(alloc, folder.as_str())?)?;
    }
    for folder in &options.include_packages {
        folders.push(String::from_str(alloc, folder.folder.as_str())?)?;
    }
    Ok(folders)
}

/// The folders whose files are read: the root, and then those with included files.
pub(crate) fn folders_read(alloc: Global, options: &IndexOptions) -> Result<Vec<String>, AllocError>
    ensures { IfOk result (λ folders. map string_bytes folders.items ≡ roots_in options.now) }
{
    let mut folders = Vec::new(alloc);
    folders.push(String::from_str(alloc, options.root.as_str())?)?;
    let mut others = included_folders(alloc, options)?;
    folders.append(&mut others)?;
    Ok(folders)
}

/// Adds a folder of this package, with the paths of the files below it.
fn add_folder(
    alloc: Global,
    packages: &mut FilePackages,
    id: PackageId,
    paths: Vec<String>,
) -> Result<(), AllocError>
    ensures { OnOk result (AddsRoots (record { id = id; paths = map string_bytes paths.items } ∷ []) packages.old
        packages.new) }
{
    let mut folder = RootPackage::new(alloc, id);
    for path in paths {
        folder.add(path)?;
    }
    packages.add(folder)?;
    Ok(())
}

/// Adds folders of these packages, with the paths of the files below each.
fn add_folders(
    alloc: Global,
    packages: &mut FilePackages,
    ids: Vec<PackageId>,
    paths: Vec<Vec<String>>,
) -> Result<(), AllocError>
    ensures { OnOk result (AddsRoots (roots_of ids.items (map (λ here. map string_bytes here.items) paths.items))
        packages.old packages.new) }
{
    for (id, here) in ids.into_iter().zip(paths) {
        add_folder(alloc, packages, id, here)?;
    }
    Ok(())
}

/// A tree, what isn't read and is left out of it, and the packages that its files belong to.
#[derive(Drop)]
pub(crate) struct Folders {
    pub(crate) tree: Tree,
    pub(crate) unread: Vec<UnreadPath>,
    pub(crate) packages: FilePackages,
}

/// The packages of files, by the folders that they were read from: of the paths of the files below the root, of those
/// below each included folder, and the packages of those that have one of their own.
#[tactic(auto, using(crate::proofs::StartingRules::of_run))]
fn packages_by(
    alloc: Global,
    options: &IndexOptions,
    ids: Vec<PackageId>,
    own: Vec<String>,
    others: Vec<Vec<String>>,
) -> Result<FilePackages, StartFault>
    requires { ids.items ≡ map folder_package options.now.include_packages.items }
    ensures by { IfOk result (AreByFolder options.now (map string_bytes own.items) (map (λ here. map string_bytes
        here.items) others.items)) }
    ensures bad { IfErr result (NamesNone options.now) }
{
    let mut packages = FilePackages::of_run(alloc, package_of(alloc, options)?);
    add_folder(alloc, &mut packages, package_of(alloc, options)?, own)?;
    let all = packages_of_included(alloc, options, ids)?;
    add_folders(alloc, &mut packages, all, others)?;
    packages.run();
    Ok(packages)
}

/// A tree that was loaded, as it is read in the dialect of the options, with the packages of its files.
#[tactic(auto, using(crate::proofs::StartingRules::of_run))]
pub(crate) fn folders_by(
    alloc: Global,
    options: &IndexOptions,
    ids: Vec<PackageId>,
    loaded: LoadedTree,
) -> Result<Folders, StartFault>
    requires { ids.items ≡ map folder_package options.now.include_packages.items }
    ensures read { IfOk result (λ made. AreReadIn options.now.dialect loaded.tree made.tree) }
    ensures unread { IfOk result (λ made. made.unread.items ≡ map path_unread (map unread_of loaded.unread.items)) }
    ensures by { IfOk result (λ made. AreByFolder options.now (map string_bytes loaded.own.items)
        (map (λ here. map string_bytes here.items) loaded.others.items) made.packages) }
    ensures bad { IfErr result (NamesNone options.now) }
{
    let LoadedTree {
        tree,
        own,
        others,
        unread,
    } = loaded;
    let packages = packages_by(alloc, options, ids, own, others)?;
    let read = as_read(alloc, options.dialect, tree)?;
    let unread = paths_unread(alloc, unread)?;
    Ok(Folders {
        tree: read,
        unread,
        packages,
    })
}

/// The packages of the folders that have one of their own, if the run has one.
#[tactic(auto, using(crate::proofs::StartingRules::of_names))]
pub(crate) fn packages_named(
    alloc: Global,
    options: &IndexOptions,
) -> Result<Vec<PackageId>, StartFault>
    ensures ids { IfOk result (λ ids. ids.items ≡ map folder_package options.now.include_packages.items) }
    ensures named { IfOk result (λ _. NamePackages options.now) }
    ensures stops { IfErr result (NameNoPackages options.now) }
{
    package_of(alloc, options)?;
    let ids = packages_of_folders(alloc, &options.include_packages)?;
    Ok(ids)
}

/// The tree of the sources below the root and of the files below the included folders, where no list names the sources.
#[tactic(auto, using(crate::proofs::StartingRules::of_start))]
fn folders_walked<R: Threads + Wait, G: Gate, F: ReadFiles + Sync>(
    readers: &Readers<'_, R, G, F>,
    options: &IndexOptions,
) -> Result<Folders, StartFault>
    requires faulty { readers.now.leaves_out ≡ leaves_out options.now.faulty }
    requires unlisted { options.now.sources ≡ None }
    ensures named { IfOk result (λ _. NamePackages options.now) }
    ensures folders { IfOk result (λ made. AreFolders (F.lists readers.now.files.now) (F.gives readers.now.files.now)
        (F.finds readers.now.files.now)
        options.now made.tree made.unread.items made.packages) }
    ensures stops { IfErr result (MayNotStart (F.lists readers.now.files.now) (F.gives readers.now.files.now)
        (F.finds readers.now.files.now)
        options.now) }
{
    let alloc = readers.alloc;
    let run = package_of(alloc, options)?;
    let ids = packages_of_folders(alloc, &options.include_packages)?;
    let root = options.root.as_str();
    if options.include_packages.is_empty() {
        let found = load_tree(readers, root, &options.include)?;
        let Loaded { tree, unread } = found;
        let read = as_read(alloc, options.dialect, tree)?;
        let unread = paths_unread(alloc, unread)?;
        return Ok(Folders {
            tree: read,
            unread,
            packages: FilePackages::of_run(alloc, run),
        });
    }
    let folders = included_folders(alloc, options)?;
    let loaded = load_tree_with_paths(readers, root, &folders)?;
    let made = folders_by(alloc, options, ids, loaded)?;
    Ok(made)
}

/// The tree of the sources below the root and of the files below the included folders, or of the sources that a list
/// names and of the files that they reach there, as they are read in the dialect of the options, and the packages that
/// they belong to: of files with one path the first counts. Whether what can't be read is left out, the options have to
/// say as the readers do.
///
/// `BadPart`, of the run, or `BadFolder`, of the first folder whose package has a bad part; then the faults of
/// `load_tree`, or those of `load_listed`: that of a source is `Unlisted`.
pub(crate) fn load_folders<R: Threads + Wait, G: Gate, F: ReadFiles + Sync>(
    readers: &Readers<'_, R, G, F>,
    options: &IndexOptions,
) -> Result<Folders, StartFault>
    requires { readers.now.leaves_out ≡ leaves_out options.now.faulty }
    ensures named { IfOk result (λ _. NamePackages options.now) }
    ensures folders { IfOk result (λ made. AreFolders (F.lists readers.now.files.now) (F.gives readers.now.files.now)
        (F.finds readers.now.files.now)
        options.now made.tree made.unread.items made.packages) }
    ensures stops { IfErr result (MayNotStart (F.lists readers.now.files.now) (F.gives readers.now.files.now)
        (F.finds readers.now.files.now)
        options.now) }
{
    match &options.sources {
        Some(list) => folders_of_list(readers, options, list),
        None => folders_walked(readers, options),
    }
}
