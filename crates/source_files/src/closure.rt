//! The files that sources reach, level by level.

ghost use Rattle.std.specs.Prelude.{
  ◌≡◌,
  ◌++◌,
  ◌∷◌,
  [],
  List,
  ℕ,
  IfErr,
  IfOk,
  MatchResult,
  OnOk,
  false,
  map,
  string_bytes,
  true,
  ◌<◌,
  ◌+◌,
  ◌↔◌,
  IsTrue,
  ◌&&◌,
  not,
  if◌then◌else◌,
};
ghost use Rattle.source_tree.specs.Trees.{max_files};
ghost use Rattle.source_files.specs.Reached.{AreIncluded, MayNotInclude, descriptor_path};
ghost use Rattle.source_files.specs.Looks.{AreLooked, GivesLooked, MayStopLooking};
ghost use Rattle.source_files.specs.Closures.{
  AddsFresh,
  AreFresh,
  PutsPath,
  Same,
  gathered,
  built_in_of,
  paths_in,
  wanted_by,
  wanted_first,
  wanted_in,
  wanted_of,
  with_more,
};

use crate::find_imports::{FindImports, FoundImport};
use crate::load_fault::LoadFault;
use crate::looking::{FoundFile, Looked, Looking, look_each};
use crate::read_files::ReadFiles;
use crate::readers::Readers;
use index_pool::Gate;
use source_tree::{MAX_FILES, is_good_path};
use std::alloc::{AllocError, Global};
use std::collections::HashSet;
use std::marker::Model;
use std::sync::Wait;
use std::thread::Threads;

/// Where a source has the messages of its options, if no file that it imports has them.
const DESCRIPTOR_PATH: &str = "google/protobuf/descriptor.proto";

/// Files that were found, and the paths of those that are left out.
///
/// Contracts see the lists.
#[derive(Drop)]
pub(crate) struct Gathered {
    /// The files.
    pub(crate) found: Vec<FoundFile>,
    /// The paths of what can't be read and is left out.
    pub(crate) unread: Vec<String>,
}

impl Model for Gathered {
    ghost use Rattle.std.specs.Prelude.{map, string_bytes};
    ghost use Rattle.source_files.specs.Closures.{Gathered};

    ghost Value = { Gathered };

    ghost view = { λ all. record { found = all.found.items; unread = map string_bytes all.unread.items } };
}

/// Nothing was found, and nothing is left out.
fn nothing(alloc: Global) -> Gathered
    ensures { result ≡ record { found = []; unread = [] } }
{
    Gathered {
        found: Vec::new(alloc),
        unread: Vec::new(alloc),
    }
}

/// Adds what looking for a file gave.
fn gather_one(all: &mut Gathered, looked: Looked) -> Result<(), AllocError>
    ensures { OnOk result (all.new ≡ with_more all.old (gathered (looked ∷ []))) }
{
    match looked {
        Looked::Found(found) => all.found.push(found)?,
        Looked::LeftOut(path) => all.unread.push(path)?,
        Looked::Nowhere(_path) => {}
    }
    Ok(())
}

/// What looking for files gave.
pub(crate) fn gather(alloc: Global, looked: Vec<Looked>) -> Result<Gathered, AllocError>
    ensures { IfOk result (λ all. all ≡ gathered looked.items) }
{
    let mut all = nothing(alloc);
    for one in looked {
        gather_one(&mut all, one)?;
    }
    Ok(all)
}

/// Adds what was gathered.
fn add_gathered(all: &mut Gathered, more: Gathered) -> Result<(), AllocError>
    ensures { OnOk result (all.new ≡ with_more all.old more) }
{
    let Gathered { found, unread } = more;
    let mut found = found;
    let mut unread = unread;
    all.found.append(&mut found)?;
    all.unread.append(&mut unread)?;
    Ok(())
}

/// Puts a path to those that are known. Whether it is new.
fn put_path(alloc: Global, known: &mut HashSet<String>, path: &str) -> Result<bool, AllocError>
    ensures { IfOk result (PutsPath (paths_in known.old) (paths_in known.new) path.now) }
{
    let copy = String::from_str(alloc, path)?;
    let is_new = known.insert(copy)?;
    Ok(is_new)
}

/// The set of these paths.
pub(crate) fn set_of(alloc: Global, paths: &[String]) -> Result<HashSet<String>, AllocError>
    ensures { IfOk result (λ known. Same (paths_in known) (map string_bytes paths.now)) }
{
    let mut known = HashSet::new(alloc);
    let mut rest = paths;
    while let [path, others @ ..] = rest {
        put_path(alloc, &mut known, path.as_str())?;
        rest = others;
    }
    Ok(known)
}

/// Adds a copy of a path.
pub(crate) fn push_copy(
    alloc: Global,
    paths: &mut Vec<String>,
    path: &str,
) -> Result<(), AllocError>
    ensures { OnOk result (map string_bytes paths.new.items ≡ map string_bytes paths.old.items ++ path.now ∷ []) }
{
    paths.push(String::from_str(alloc, path)?)?;
    Ok(())
}

/// Adds a path to those that are to be looked for, if it is a good one and isn't known; it then is.
fn add_path(
    alloc: Global,
    known: &mut HashSet<String>,
    fresh: &mut Vec<String>,
    path: &str,
) -> Result<(), AllocError>
    ensures { OnOk result (AddsFresh (path.now ∷ []) (paths_in known.old) (paths_in known.new)
        (map string_bytes fresh.old.items) (map string_bytes fresh.new.items)) }
{
    if !is_good_path(path) {
        return Ok(());
    }
    if put_path(alloc, known, path)? {
        push_copy(alloc, fresh, path)?;
    }
    Ok(())
}

/// Whether an import is passed over: it isn't public, and only such are wanted.
fn is_hidden(publicly: bool, import: &FoundImport) -> bool
    ensures { result ≡ (publicly && not import.now.is_public) }
{
    publicly && !import.is_public
}

/// Adds what an import wants.
fn add_import(
    alloc: Global,
    publicly: bool,
    known: &mut HashSet<String>,
    fresh: &mut Vec<String>,
    import: &FoundImport,
) -> Result<(), AllocError>
    ensures { OnOk result (AddsFresh (wanted_by publicly import.now) (paths_in known.old) (paths_in known.new)
        (map string_bytes fresh.old.items) (map string_bytes fresh.new.items)) }
{
    if is_hidden(publicly, import) {
        return Ok(());
    }
    add_path(alloc, known, fresh, import.path.as_str())
}

/// Adds what imports want.
fn add_imports(
    alloc: Global,
    publicly: bool,
    known: &mut HashSet<String>,
    fresh: &mut Vec<String>,
    imports: &[FoundImport],
) -> Result<(), AllocError>
    ensures { OnOk result (AddsFresh (wanted_of publicly imports.now) (paths_in known.old) (paths_in known.new)
        (map string_bytes fresh.old.items) (map string_bytes fresh.new.items)) }
{
    let mut rest = imports;
    while let [import, others @ ..] = rest {
        add_import(alloc, publicly, known, fresh, import)?;
        rest = others;
    }
    Ok(())
}

/// Adds what the imports of files want.
fn add_files(
    alloc: Global,
    publicly: bool,
    known: &mut HashSet<String>,
    fresh: &mut Vec<String>,
    files: &[FoundFile],
) -> Result<(), AllocError>
    ensures { OnOk result (AddsFresh (wanted_in publicly files.now) (paths_in known.old) (paths_in known.new)
        (map string_bytes fresh.old.items) (map string_bytes fresh.new.items)) }
{
    let mut rest = files;
    while let [file, others @ ..] = rest {
        add_imports(alloc, publicly, known, fresh, &file.imports)?;
        rest = others;
    }
    Ok(())
}

/// The good paths that files import, all or the public ones, and that aren't known; they then are.
fn fresh_of(
    alloc: Global,
    publicly: bool,
    known: &mut HashSet<String>,
    files: &[FoundFile],
) -> Result<Vec<String>, AllocError>
    ensures { IfOk result (λ fresh. AddsFresh (wanted_in publicly files.now) (paths_in known.old)
        (paths_in known.new) []
        (map string_bytes fresh.items)) }
{
    let mut fresh = Vec::new(alloc);
    add_files(alloc, publicly, known, &mut fresh, files)?;
    Ok(fresh)
}

/// Whether the file with the messages of options is looked for: names in options are linked, and there is a source.
fn is_built_in_wanted(links_options: bool, sources: &[FoundFile]) -> bool
    ensures { built_in_of links_options sources.now ≡ if result then descriptor_path ∷ [] else [] }
{
    links_options && !sources.is_empty()
}

/// Adds the path of the file with the messages of options, if names in options are linked and there is a source.
fn add_built_in(
    alloc: Global,
    links_options: bool,
    known: &mut HashSet<String>,
    fresh: &mut Vec<String>,
    sources: &[FoundFile],
) -> Result<(), AllocError>
    ensures { OnOk result (AddsFresh (built_in_of links_options sources.now) (paths_in known.old) (paths_in known.new)
        (map string_bytes fresh.old.items) (map string_bytes fresh.new.items)) }
{
    if is_built_in_wanted(links_options, sources) {
        return add_path(alloc, known, fresh, DESCRIPTOR_PATH);
    }
    Ok(())
}

/// What is looked for at first, and isn't known: what sources import, and the file with the messages of options. It then
/// is.
fn first_fresh(
    alloc: Global,
    links_options: bool,
    known: &mut HashSet<String>,
    sources: &[FoundFile],
) -> Result<Vec<String>, AllocError>
    ensures { IfOk result (λ fresh. AddsFresh (wanted_first links_options sources.now) (paths_in known.old)
        (paths_in known.new) []
        (map string_bytes fresh.items)) }
{
    let mut fresh = fresh_of(alloc, false, known, sources)?;
    add_built_in(alloc, links_options, known, &mut fresh, sources)?;
    Ok(fresh)
}

/// Looks for the files with these paths, adds them to those that were found, and gives what they import, publicly or,
/// if names in options are linked, in any way, and isn't known; it then is.
fn reach_level<R: Threads + Wait, G: Gate, F: ReadFiles + Sync, I: FindImports + Sync>(
    readers: &Readers<'_, R, G, F>,
    looking: &Looking<'_, F, I>,
    links_options: bool,
    known: &mut HashSet<String>,
    all: &mut Gathered,
    paths: &[String],
) -> Result<Vec<String>, LoadFault>
    ensures level { IfOk result (λ fresh. (looked : List Looked) × AreLooked (GivesLooked
        (F.finds looking.now.files.now) (F.gives looking.now.files.now)
        (I.tells looking.now.finder.now) looking.now.leaves_out looking.now.is_wanted
        (map string_bytes looking.now.roots.now))
        (map string_bytes paths.now) looked × (all.new ≡ with_more all.old (gathered looked))
        × AddsFresh (wanted_in (not links_options) (gathered looked).found) (paths_in known.old) (paths_in known.new) []
        (map string_bytes fresh.items)) }
    ensures stops { IfErr result (MayStopLooking (GivesLooked (F.finds looking.now.files.now)
        (F.gives looking.now.files.now)
        (I.tells looking.now.finder.now) looking.now.leaves_out looking.now.is_wanted
        (map string_bytes looking.now.roots.now)) (map string_bytes paths.now)) }
{
    let looked = look_each(readers, looking, paths)?;
    let level = gather(readers.alloc, looked)?;
    let fresh = fresh_of(readers.alloc, !links_options, known, &level.found)?;
    add_gathered(all, level)?;
    Ok(fresh)
}

/// Whether sources and included files are more than a tree has.
fn are_too_many(sources: usize, included: usize) -> bool
    ensures { IsTrue result ↔ (max_files < sources + included) }
{
    sources > MAX_FILES || included > MAX_FILES - sources
}

/// The files that sources reach, whose paths are those that are known.
pub(crate) fn reach_each<R: Threads + Wait, G: Gate, F: ReadFiles + Sync, I: FindImports + Sync>(
    readers: &Readers<'_, R, G, F>,
    looking: &Looking<'_, F, I>,
    links_options: bool,
    known: HashSet<String>,
    sources: &[FoundFile],
) -> Result<Gathered, LoadFault>
    requires wanted { looking.now.is_wanted ≡ false }
    requires lenient { looking.now.leaves_out ≡ true }
    ensures { (listed : List (List ℕ)) → Same (paths_in known) listed → MatchResult result
        (λ all. AreIncluded (F.finds looking.now.files.now) (F.gives looking.now.files.now)
        (I.tells looking.now.finder.now) looking.now.leaves_out links_options
        (map string_bytes looking.now.roots.now) listed sources.now all.found all.unread)
        (MayNotInclude (F.finds looking.now.files.now) (F.gives looking.now.files.now)
        (I.tells looking.now.finder.now) looking.now.leaves_out links_options
        (map string_bytes looking.now.roots.now) listed sources.now) }
{
    let mut known = known;
    let mut all = nothing(readers.alloc);
    let mut fresh = first_fresh(readers.alloc, links_options, &mut known, sources)?;
    while !fresh.is_empty() {
        fresh = reach_level(
            readers,
            looking,
            links_options,
            &mut known,
            &mut all,
            &fresh,
        )?;
        if are_too_many(sources.len(), all.found.len()) {
            return Err(LoadFault::TooMany);
        }
    }
    Ok(all)
}
