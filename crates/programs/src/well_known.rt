//! The well-known files, where they are asked for.

ghost use Rattle.std.specs.Prelude.{◌≡◌, ◌∷◌, [], IfErr, IfOk, OnOk, if◌then◌else◌, map, string_bytes, true};
ghost use Rattle.std.specs.List.{list_any};
ghost use Rattle.std.specs.Option.{option_map};
ghost use Rattle.std.specs.Str.{bytes_eq};
ghost use Rattle.streams.specs.Writers.{AreTold, IsUntouched, writer};
ghost use Rattle.programs.specs.WellKnown.{
  AddsFolder,
  AddsNew,
  Includes,
  IncludesFound,
  IncludesIn,
  IsVariable,
  found_lines,
  none_line,
};

use crate::folders::folders_read;
use command_line::{IndexOptions, PackageFolder, Request};
use scip_site::say;
use source_files::{FindFiles, well_known_folder};
use std::alloc::{AllocError, Global};
use std::env::VarError;
use streams::Sink;

/// What is said if no folder has the well-known files.
const NONE_FOUND: &str =
    "protoscip: no well-known files: not beside a protoc on the PATH, nor in /usr/local/include or /usr/include";

/// What is said before the folder that has them.
const FOUND: &str = "protoscip: well-known files: ";

/// The text of a variable of the system, as it gave it. None if there is none, or if it isn't UTF-8.
pub fn variable(given: Result<String, VarError>) -> Result<Option<String>, AllocError>
    ensures { IsVariable given result }
{
    match given {
        Ok(text) => Ok(Some(text)),
        Err(VarError::OutOfMemory) => Err(AllocError),
        Err(VarError::NotPresent | VarError::NotUnicode) => Ok(None),
    }
}

/// A text, if there is one.
fn text_in(text: &Option<String>) -> Option<&str>
    ensures { option_map (λ text. text.now) result ≡ option_map string_bytes text.now }
{
    match text {
        Some(text) => Some(text.as_str()),
        None => None,
    }
}

/// Whether a folder is this one.
fn is_folder(one: &String, folder: &str) -> bool
    ensures { result ≡ bytes_eq (string_bytes one.now) folder.now }
{
    one.as_str() == folder
}

/// Whether a folder is among these.
fn is_among(folders: &[String], folder: &str) -> bool
    ensures { result ≡ list_any (λ one. bytes_eq (string_bytes one) folder.now) folders.now }
{
    folders.iter().any(|one| is_folder(one, folder))
}

/// Adds a folder with included files of the run's package, behind all others.
fn add_folder(alloc: Global, options: &mut IndexOptions, folder: &str) -> Result<(), AllocError>
    ensures { OnOk result (AddsFolder folder.now options.old options.new) }
{
    let path = String::from_str(alloc, folder)?;
    if options.include_packages.is_empty() {
        options.include.push(path)?;
        return Ok(());
    }
    let folder = PackageFolder {
        manager: String::from_str(alloc, options.manager.as_str())?,
        name: String::from_str(alloc, options.package.as_str())?,
        release: String::from_str(alloc, options.release.as_str())?,
        folder: path,
    };
    options.include_packages.push(folder)?;
    Ok(())
}

/// Adds it if it isn't one of those that are read, and says whether it did.
fn add_new(alloc: Global, options: &mut IndexOptions, folder: &str) -> Result<bool, AllocError>
    ensures { IfOk result (AddsNew folder.now options.old options.new) }
{
    let folders = folders_read(alloc, options)?;
    if is_among(folders.as_slice(), folder) {
        return Ok(false);
    }
    add_folder(alloc, options, folder)?;
    Ok(true)
}

/// The line, without its end, that says which folder has the well-known files.
fn found_line(alloc: Global, folder: &str) -> Result<String, AllocError>
    ensures { IfOk result (λ line. found_lines true folder.now ≡ string_bytes line ∷ []) }
{
    let mut line = String::from_str(alloc, FOUND)?;
    line.push_str(folder)?;
    Ok(line)
}

/// Says a line, if this holds.
fn say_if<M: Sink>(holds: bool, line: &str, messages: &mut M)
    ensures { AreTold (writer M.Sink messages) (if holds then line.now ∷ [] else []) }
{
    if holds {
        say(messages, line);
    }
}

/// Includes the folder that has the well-known files, and says which it is, if faults are explained. Gives it back if
/// it wasn't read already.
fn include_folder<M: Sink>(
    alloc: Global,
    options: &mut IndexOptions,
    folder: String,
    messages: &mut M,
) -> Result<Option<String>, AllocError>
    ensures included { IfOk result (λ known. IncludesFound (writer M.Sink messages) (string_bytes folder) options.old
        options.new (option_map string_bytes known)) }
    ensures refused { IfErr result (λ _. IsUntouched (writer M.Sink messages)) }
{
    let explain = options.explain;
    let line = found_line(alloc, folder.as_str())?;
    let is_new = add_new(alloc, options, folder.as_str())?;
    say_if(explain, line.as_str(), messages);
    if is_new { Ok(Some(folder)) } else { Ok(None) }
}

/// Includes the well-known files, if options ask for them. Gives back the root that is to have these alone, if there is
/// one.
fn include_known<F: FindFiles, M: Sink>(
    alloc: Global,
    files: &F,
    path: Option<&str>,
    options: &mut IndexOptions,
    messages: &mut M,
) -> Result<Option<String>, AllocError>
    ensures included { IfOk result (λ known. Includes (F.finds files.now) (option_map (λ path. path.now) path.entry)
        (writer M.Sink messages) options.old options.new (option_map string_bytes known)) }
    ensures refused { IfErr result (λ _. IsUntouched (writer M.Sink messages)) }
{
    if options.well_known {
        match well_known_folder(alloc, files, path)? {
            Some(folder) => include_folder(alloc, options, folder, messages),
            None => {
                say(messages, NONE_FOUND);
                Ok(None)
            }
        }
    } else {
        Ok(None)
    }
}

/// What is asked for, with the well-known files among the included ones, if that is asked for, too; and the root that
/// is to have these alone, if there is one. `path` is the PATH. It says which folder has them, if faults are explained,
/// or that none has.
pub fn with_well_known<F: FindFiles, M: Sink>(
    alloc: Global,
    files: &F,
    path: &Option<String>,
    asked: Request,
    messages: &mut M,
) -> Result<(Request, Option<String>), AllocError>
    ensures included { IfOk result (λ known. IncludesIn (F.finds files.now) (option_map string_bytes path.now)
        (writer M.Sink messages) asked known.0 (option_map string_bytes known.1)) }
    ensures refused { IfErr result (λ _. IsUntouched (writer M.Sink messages)) }
{
    let path = text_in(path);
    match asked {
        Request::Index(given) => {
            let mut given = given;
            let known = include_known(alloc, files, path, &mut given.options, messages)?;
            Ok((Request::Index(given), known))
        }
        Request::Shell(given) => {
            let mut given = given;
            let known = include_known(alloc, files, path, &mut given.options, messages)?;
            Ok((Request::Shell(given), known))
        }
        request => Ok((request, None)),
    }
}
