//! Where the well-known files are: `google/protobuf/*.proto`, which a `protoc` comes with.

ghost use Rattle.std.specs.Prelude.{◌≡◌, ◌==◌, ◌++◌, ℕ, List, IfOk, OnOk, map, string_bytes};
ghost use Rattle.std.specs.Borrow.{Bor};
ghost use Rattle.std.specs.List.{slice_split};
ghost use Rattle.std.specs.Option.{option_map};
ghost use Rattle.source_files.specs.WellKnown.{
  AddsBeside,
  AreBeside,
  IsFirstKnown,
  IsWellKnown,
  folder_named,
  folders_on,
};

use crate::find_files::FindFiles;
use std::alloc::{AllocError, Global};

/// What a folder on the PATH has that can be asked for the others.
const PROTOC: &str = "/protoc";

/// What comes with it, from its own folder.
const INCLUDE: &str = "/../include";

/// The well-known file that is looked for.
const DESCRIPTOR: &str = "/google/protobuf/descriptor.proto";

/// What has a name on the PATH.
fn names_on(alloc: Global, path: &str) -> Result<Vec<&str>, AllocError>
    ensures { IfOk result (λ names. map (λ (name : Bor (List ℕ)). name.now) names.items
        ≡ slice_split (λ b. b == 58) path.now) }
{
    path.split(':').collect(alloc)
}

/// The folder with a name on the PATH.
fn folder_named(name: &str) -> &str
    ensures { result.now ≡ folder_named name.now }
{
    if name.is_empty() { "." } else { name }
}

/// The path of a folder with this behind it.
fn with_end(alloc: Global, folder: &str, end: &str) -> Result<String, AllocError>
    ensures { IfOk result (λ path. string_bytes path ≡ folder.now ++ end.now) }
{
    let mut path = String::from_str(alloc, folder)?;
    path.push_str(end)?;
    Ok(path)
}

/// Whether a regular file has the path of a folder with this behind it.
fn has<F: FindFiles>(alloc: Global, files: &F, folder: &str, end: &str) -> Result<bool, AllocError>
    ensures { IfOk result (λ there. F.finds files.now (folder.now ++ end.now) there) }
{
    let path = with_end(alloc, folder, end)?;
    files.is_there(path.as_str())
}

/// Adds `../include` beside the `protoc` of a folder, if it has one.
fn add_beside<F: FindFiles>(
    alloc: Global,
    files: &F,
    folder: &str,
    beside: &mut Vec<String>,
) -> Result<(), AllocError>
    ensures { OnOk result (AddsBeside (F.finds files.now) folder.now (map string_bytes beside.old.items)
        (map string_bytes beside.new.items)) }
{
    if has(alloc, files, folder, PROTOC)? {
        let include = with_end(alloc, folder, INCLUDE)?;
        beside.push(include)?;
    }
    Ok(())
}

/// The folders beside each `protoc` in the folders with these names on the PATH, in their order.
fn beside_each<F: FindFiles>(
    alloc: Global,
    files: &F,
    names: &[&str],
) -> Result<Vec<String>, AllocError>
    ensures { IfOk result (λ beside. AreBeside (F.finds files.now)
        (map (λ (name : Bor (List ℕ)). folder_named name.now) names.now) (map string_bytes beside.items)) }
{
    let mut beside = Vec::new(alloc);
    let mut rest = names;
    while let [name, others @ ..] = rest {
        add_beside(alloc, files, folder_named(*name), &mut beside)?;
        rest = others;
    }
    Ok(beside)
}

/// The same of all folders on the PATH, if there is one.
fn beside_path<F: FindFiles>(
    alloc: Global,
    files: &F,
    path: Option<&str>,
) -> Result<Vec<String>, AllocError>
    ensures { IfOk result (λ beside. AreBeside (F.finds files.now) (folders_on (option_map (λ p. p.now) path.entry))
        (map string_bytes beside.items)) }
{
    match path {
        Some(path) => {
            let names = names_on(alloc, path)?;
            beside_each(alloc, files, names.as_slice())
        }
        None => Ok(Vec::new(alloc)),
    }
}

/// The first of these folders that has the well-known files, if one has.
fn first_known<F: FindFiles>(
    alloc: Global,
    files: &F,
    folders: &[String],
) -> Result<Option<String>, AllocError>
    ensures { IfOk result (λ found. IsFirstKnown (F.finds files.now) (map string_bytes folders.now)
        (option_map string_bytes found)) }
{
    let mut rest = folders;
    while let [folder, others @ ..] = rest {
        if has(alloc, files, folder.as_str(), DESCRIPTOR)? {
            return Ok(Some(String::from_str(alloc, folder.as_str())?));
        }
        rest = others;
    }
    Ok(None)
}

/// The folder with the well-known files, if there is one: the first of `../include` beside each `protoc` on the PATH,
/// `/usr/local/include` and `/usr/include` that has `google/protobuf/descriptor.proto`.
pub fn well_known_folder<F: FindFiles>(
    alloc: Global,
    files: &F,
    path: Option<&str>,
) -> Result<Option<String>, AllocError>
    ensures { IfOk result (λ found. IsWellKnown (F.finds files.now) (option_map (λ p. p.now) path.entry)
        (option_map string_bytes found)) }
{
    let mut folders = beside_path(alloc, files, path)?;
    folders.push(String::from_str(alloc, "/usr/local/include")?)?;
    folders.push(String::from_str(alloc, "/usr/include")?)?;
    first_known(alloc, files, &folders)
}
